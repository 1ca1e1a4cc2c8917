ghost use Rattle.std.specs.Prelude.{◌≡◌};

use std::alloc::AllocFailed;
use tk_frames::FrameError;
use tk_shape::Memory as WantOfMemory;

/// Why a frame isn't ordered.
#[derive(Clone, Copy, Debug, PartialEq, Eq)]
pub enum WriteError {
    /// The bytes are no write frame.
    Frame(FrameError),
    /// It is another client's; the pass's client, and the frame's.
    Client { want: u32, got: u32 },
    Memory,
}

/// Why a read isn't answered.
#[derive(Clone, Copy, Debug, PartialEq, Eq)]
pub enum AnswerError {
    /// The bytes are no read frame.
    Frame(FrameError),
    /// It names another epoch; the set's number, and the frame's.
    Epoch { want: u32, got: u32 },
    Memory,
}

impl From<WantOfMemory> for WriteError {
    ghost use Rattle.tk_cluster.specs.declared.error.WriteError.TheVariants.{Memory};

    ghost from_gives = { λ _ e. e ≡ Memory };

    fn from(_e: WantOfMemory) -> WriteError {
        WriteError::Memory
    }
}

impl From<FrameError> for WriteError {
    ghost use Rattle.tk_cluster.specs.Refusals.{write_error};

    ghost from_gives = { λ f e. e ≡ write_error f };

    fn from(error: FrameError) -> WriteError {
        match error {
            FrameError::Memory => WriteError::Memory,
            error => WriteError::Frame(error),
        }
    }
}

impl From<WantOfMemory> for AnswerError {
    ghost use Rattle.tk_cluster.specs.declared.error.AnswerError.TheVariants.{Memory};

    ghost from_gives = { λ _ e. e ≡ Memory };

    fn from(_e: WantOfMemory) -> AnswerError {
        AnswerError::Memory
    }
}

impl<T: Drop> From<AllocFailed<T>> for AnswerError {
    ghost use Rattle.tk_cluster.specs.declared.error.AnswerError.TheVariants.{Memory};

    ghost from_gives = { λ _ e. e ≡ Memory };

    fn from(_e: AllocFailed<T>) -> AnswerError {
        AnswerError::Memory
    }
}

impl From<FrameError> for AnswerError {
    ghost use Rattle.tk_cluster.specs.Refusals.{answer_error};

    ghost from_gives = { λ f e. e ≡ answer_error f };

    fn from(error: FrameError) -> AnswerError {
        match error {
            FrameError::Memory => AnswerError::Memory,
            error => AnswerError::Frame(error),
        }
    }
}
