ghost use Rattle.std.specs.Prelude.{◌≡◌};
ghost use Rattle.tk_client.specs.declared.say_error.SayError.TheVariants.{Memory};

use std::alloc::{AllocError, AllocFailed};
use tk_shape::Memory as WantOfMemory;

/// Why a text can't be said.
#[derive(Clone, Copy, Debug, PartialEq, Eq)]
pub enum SayError {
    /// Another client writes the log.
    NotWriter { log: u32 },
    /// The text has more bytes than this, which are what a block has room for.
    TooLong { room: u32 },
    /// The text is not UTF-8, or has a byte that may not be sent. Its longest front that may be
    /// sent has this length.
    Text { at: u64 },
    /// The text may be said, but there is no room for it.
    Memory,
}

impl From<AllocError> for SayError {
    ghost from_gives = { λ _ e. e ≡ Memory };

    fn from(_e: AllocError) -> SayError {
        SayError::Memory
    }
}

impl<T: Drop> From<AllocFailed<T>> for SayError {
    ghost from_gives = { λ _ e. e ≡ Memory };

    fn from(_e: AllocFailed<T>) -> SayError {
        SayError::Memory
    }
}

impl From<WantOfMemory> for SayError {
    ghost from_gives = { λ _ e. e ≡ Memory };

    fn from(_e: WantOfMemory) -> SayError {
        SayError::Memory
    }
}
