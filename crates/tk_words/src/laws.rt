ghost use Rattle.tk_words.specs.Opening.{OneTextSeals};

/// At most one text seals to a block.
pub fn one_text_seals()
    ensures { OneTextSeals }
{}
