ghost use Rattle.std.specs.Prelude.{◌≡◌};
ghost use Rattle.tk_client.specs.declared.take_error.TakeError.TheVariants as fault;

use std::alloc::{AllocError, AllocFailed};
use tk_frames::FrameError;
use tk_shape::Memory;

/// Why replies are refused. Servers are counted from 1.
#[derive(Clone, Copy, Debug, PartialEq, Eq)]
pub enum TakeError {
    /// The first reply that isn't a reply frame.
    Frame { server: u32, error: FrameError },
    /// The first reply that names another client, turn or epoch, tried in this order, than the one
    /// that was asked for.
    Named { server: u32, want: u32, got: u32 },
    /// Want of memory.
    Memory,
}

impl From<Memory> for TakeError {
    ghost from_gives = { λ _ e. e ≡ fault.Memory };

    fn from(_e: Memory) -> TakeError {
        TakeError::Memory
    }
}

impl From<AllocError> for TakeError {
    ghost from_gives = { λ _ e. e ≡ fault.Memory };

    fn from(_e: AllocError) -> TakeError {
        TakeError::Memory
    }
}

impl<T: Drop> From<AllocFailed<T>> for TakeError {
    ghost from_gives = { λ _ e. e ≡ fault.Memory };

    fn from(_e: AllocFailed<T>) -> TakeError {
        TakeError::Memory
    }
}
