ghost use Rattle.std.specs.Prelude.{◌≡◌};

use std::alloc::AllocError;
use tk_io::Failed;
use tk_shape::Memory;

/// Why a run ends early.
#[derive(Clone, Copy, Debug, PartialEq, Eq)]
pub enum RunError {
    /// A tap fails, and its count of faults rose.
    Taps,
    /// Want of memory.
    Memory,
}

impl From<Failed> for RunError {
    ghost use Rattle.tk_run.specs.declared.run_error.RunError.TheVariants as error;

    ghost from_gives = { λ _ e. e ≡ error.Taps };

    fn from(_e: Failed) -> RunError {
        RunError::Taps
    }
}

impl From<Memory> for RunError {
    ghost use Rattle.tk_run.specs.declared.run_error.RunError.TheVariants as error;

    ghost from_gives = { λ _ e. e ≡ error.Memory };

    fn from(_e: Memory) -> RunError {
        RunError::Memory
    }
}

impl From<AllocError> for RunError {
    ghost use Rattle.tk_run.specs.declared.run_error.RunError.TheVariants as error;

    ghost from_gives = { λ _ e. e ≡ error.Memory };

    fn from(_e: AllocError) -> RunError {
        RunError::Memory
    }
}
