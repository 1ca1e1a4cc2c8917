//! Why answers to shares are worth joining.
ghost use Rattle.tk_bits.specs.Laws.{LastIsComputed, SharesJoin, SumsAdd, AnswersJoin};

/// The first servers get the drawn vectors in their order, each with its seed, and the last one gets the computed
/// vector without a seed.
pub fn last_is_computed()
    ensures { LastIsComputed }
{}

/// The vectors of all shares of a bucket join to its unit vector.
pub fn shares_join()
    ensures { SharesJoin }
{}

/// The sum of what joined vectors choose is the sum of what each of them chooses.
pub fn sums_add()
    ensures { SumsAdd }
{}

/// Where servers have equal blocks, their joined answers are the wanted block.
pub fn answers_join()
    ensures { AnswersJoin }
{}
