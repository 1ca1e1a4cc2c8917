ghost use Rattle.tk_script.specs.Laws.{GivesInputs, ReadsWhatIsSpelled, SpellsOne};
ghost use Rattle.tk_script.specs.SentLaws.{SendsInRange, SendsOnce, FindsByNumber};

/// A text spells one input of a form at most: drawn or keyed, and of any shape. Read line by line,
/// as `parse` reads it, it gives that input and no other, and what it gives is always an input that
/// the text spells.
pub fn one_input()
    ensures only { SpellsOne }
    ensures read { ReadsWhatIsSpelled }
    ensures given { GivesInputs }
{}

/// No number of a log is sent twice. What a client sends in a turn is a number of a log that it
/// writes, below the count of turns, and its text may be sealed. It is found by its log and number
/// as it is by its turn.
pub fn numbers_sent_once()
    ensures once { SendsOnce }
    ensures in_range { SendsInRange }
    ensures found { FindsByNumber }
{}
