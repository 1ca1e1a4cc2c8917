ghost use Rattle.std.specs.Prelude.{◌≡◌};

use std::alloc::{AllocError, AllocFailed};
use tk_frames::FrameError;
use tk_shape::Memory as WantOfMemory;

/// Why an epoch isn't given.
#[derive(Clone, Copy, Debug, PartialEq, Eq)]
pub enum PinError {
    /// No mark has that number yet; the last that was applied.
    Ahead { last: u32 },
    /// It was let go; the first that is kept.
    Retired { floor: u32 },
    Memory,
}

/// Why a read isn't answered.
#[derive(Clone, Copy, Debug, PartialEq, Eq)]
pub enum ServeError {
    /// The bytes are no read frame.
    Frame(FrameError),
    /// It names an epoch above the last.
    Ahead { last: u32 },
    /// It names an epoch that was let go.
    Retired { floor: u32 },
    Memory,
}

impl From<AllocError> for PinError {
    ghost use Rattle.tk_replica.specs.declared.error.PinError.TheVariants.{Memory};

    ghost from_gives = { λ _ e. e ≡ Memory };

    fn from(_e: AllocError) -> PinError {
        PinError::Memory
    }
}

impl From<WantOfMemory> for ServeError {
    ghost use Rattle.tk_replica.specs.declared.error.ServeError.TheVariants.{Memory};

    ghost from_gives = { λ _ e. e ≡ Memory };

    fn from(_e: WantOfMemory) -> ServeError {
        ServeError::Memory
    }
}

impl<T: Drop> From<AllocFailed<T>> for ServeError {
    ghost use Rattle.tk_replica.specs.declared.error.ServeError.TheVariants.{Memory};

    ghost from_gives = { λ _ e. e ≡ Memory };

    fn from(_e: AllocFailed<T>) -> ServeError {
        ServeError::Memory
    }
}

impl From<PinError> for ServeError {
    ghost use Rattle.tk_replica.specs.Refusals.{serve_error};

    ghost from_gives = { λ p e. e ≡ serve_error p };

    fn from(error: PinError) -> ServeError {
        match error {
            PinError::Ahead { last } => ServeError::Ahead { last },
            PinError::Retired { floor } => ServeError::Retired { floor },
            PinError::Memory => ServeError::Memory,
        }
    }
}

impl From<FrameError> for ServeError {
    ghost use Rattle.tk_replica.specs.Refusals.{frame_error};

    ghost from_gives = { λ f e. e ≡ frame_error f };

    fn from(error: FrameError) -> ServeError {
        match error {
            FrameError::Memory => ServeError::Memory,
            error => ServeError::Frame(error),
        }
    }
}
