ghost use Rattle.tk_seal.specs.Laws.{OpensWhatSeals};

/// A block opens to the text that was sealed to it, and to no other.
pub fn opens_what_seals()
    ensures { OpensWhatSeals }
{}
