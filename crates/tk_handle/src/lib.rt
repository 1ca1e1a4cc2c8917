//! Keyed words (ChaCha20's block function, RFC 8439, with a 64-bit counter and a 64-bit stream), and the handle of a log.
#![tactic(auto)]

mod handle;
mod stream;

pub use handle::Handle;
pub use stream::{Stream, fill, remainders, word};
