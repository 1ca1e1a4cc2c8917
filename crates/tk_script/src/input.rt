use crate::{RawReplies, Script};
use tk_schedule::RawHistory;
use tk_shape::Bytes;

/// A tape as it was read: no more bytes than the first script's shape wants are kept, and all are
/// counted.
#[derive(Debug, Drop)]
pub struct RawTape {
    pub bytes: Bytes,
    pub got: u64,
}

/// What a text spells: a script, or two; a history and replies as they were read, where the form
/// has them; and a tape where words are drawn.
#[derive(Debug, Drop)]
pub struct Input {
    pub first: Script,
    pub second: Option<Script>,
    pub history: Option<RawHistory>,
    pub replies: Option<RawReplies>,
    pub tape: Option<RawTape>,
}
