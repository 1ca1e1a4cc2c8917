//! The buckets of a read, kept until its replies are taken, so that they are found once.
ghost use Rattle.std.specs.Prelude.{◌≡◌, ◌<◌};
ghost use Rattle.tk_shape.specs.Lengths.{turn_count};
ghost use Rattle.tk_words.specs.Words.{pair_of, pair_under};

use crate::target::Target;
use tk_shape::Shape;
use tk_words::{Draws, LogSeeds};

/// The buckets of a number of a log, and what they come from.
#[derive(Clone, Copy, Debug)]
pub(crate) struct KeptPair {
    seeds: LogSeeds,
    /// How many buckets there are.
    buckets: u32,
    number: u32,
    pair: (u32, u32),
    ghost comes_from: { pair ≡ pair_under buckets seeds number },
    ghost first_in: { pair.0 < buckets },
    ghost second_in: { pair.1 < buckets },
}

/// The buckets of a read, and what is kept of them.
#[derive(Clone, Copy)]
pub(crate) struct ReadPair {
    pub pair: (u32, u32),
    pub kept: Option<KeptPair>,
}

/// The buckets of a target. They are kept if they come from seeds.
pub(crate) fn pair_to_keep<D: Draws>(shape: &Shape, draws: &D, target: Target) -> ReadPair
    requires one_shape { D.shape draws.now ≡ shape.now }
    requires log_in { target.log < shape.now.logs }
    requires number_in { target.number < turn_count shape.now }
    ensures pair { let own = D.shape draws.now in
        result.pair ≡ pair_of own (D.book draws.now) target.log target.number }
    ensures first_in { result.pair.0 < shape.now.buckets }
    ensures second_in { result.pair.1 < shape.now.buckets }
{
    let pair = draws.pair(target.log, target.number);
    let Some(seeds) = draws.log_seeds(target.log) else {
        return ReadPair { pair, kept: None };
    };
    let kept = KeptPair {
        seeds,
        buckets: shape.buckets,
        number: target.number,
        pair,
    };
    ReadPair {
        pair,
        kept: Some(kept),
    }
}

/// The buckets of a target: those that are kept, if they are its own, or else as the book gives
/// them.
pub(crate) fn pair_of_target<D: Draws>(
    shape: &Shape,
    draws: &D,
    target: Target,
    kept: Option<KeptPair>,
) -> (u32, u32)
    requires one_shape { D.shape draws.now ≡ shape.now }
    requires log_in { target.log < shape.now.logs }
    requires number_in { target.number < turn_count shape.now }
    ensures pair { result ≡ pair_of shape.now (D.book draws.now) target.log target.number }
    ensures first_in { result.0 < shape.now.buckets }
    ensures second_in { result.1 < shape.now.buckets }
{
    if let Some(kept) = kept {
        if let Some(seeds) = draws.log_seeds(target.log) {
            if kept.number == target.number
                && kept.buckets == shape.buckets
                && kept.seeds == seeds
            {
                return kept.pair;
            }
        }
    }
    draws.pair(target.log, target.number)
}
