ghost use Rattle.std.specs.Prelude.{◌≡◌};
ghost use Rattle.tk_frames.specs.declared.fault.FrameError.TheVariants.{Memory};

use std::alloc::{AllocError, AllocFailed};
use tk_shape::Memory as WantOfMemory;

/// A field of a frame.
#[derive(Clone, Copy, Debug, PartialEq, Eq)]
pub enum Name {
    Position,
    Client,
    Turn,
    First,
    Second,
    Hit,
    Epoch,
}

/// Why bytes give no value.
#[derive(Clone, Copy, Debug, PartialEq, Eq)]
pub enum FrameError {
    /// Bytes wanted, and bytes there.
    Length { want: u64, got: u64 },
    /// The first byte.
    Kind { got: u8 },
    /// The second byte, which is 1 in a frame.
    Version { got: u8 },
    /// The first field out of range.
    Field { name: Name, got: u64 },
    /// The bytes are a frame, but there is no room for its value.
    Memory,
}

impl From<AllocError> for FrameError {
    ghost from_gives = { λ _ e. e ≡ Memory };

    fn from(_e: AllocError) -> FrameError {
        FrameError::Memory
    }
}

impl<T: Drop> From<AllocFailed<T>> for FrameError {
    ghost from_gives = { λ _ e. e ≡ Memory };

    fn from(_e: AllocFailed<T>) -> FrameError {
        FrameError::Memory
    }
}

impl From<WantOfMemory> for FrameError {
    ghost from_gives = { λ _ e. e ≡ Memory };

    fn from(_e: WantOfMemory) -> FrameError {
        FrameError::Memory
    }
}
