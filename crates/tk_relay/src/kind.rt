//! The kinds of the frames of a relayed read, which follow on those of other frames.

/// What a client sends to server 1: its vectors for all servers.
pub const BUNDLE: u8 = 8;

/// What server 1 passes on to a server.
pub const PART: u8 = 9;

/// What the server replies to that.
pub const MASKED_REPLY: u8 = 10;
