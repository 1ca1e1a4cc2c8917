/// Which sections an input has.
#[derive(Clone, Copy, Debug, PartialEq, Eq)]
pub enum Form {
    /// A script, and a tape where its words are drawn.
    Run,
    /// A keyed script.
    Relay,
    /// A script, a history, and a tape where the script's words are drawn.
    View,
    /// Two scripts of drawn words, a history and a tape.
    Mirror,
    /// Two scripts of drawn words, a history, replies and a tape.
    Wrong,
}
