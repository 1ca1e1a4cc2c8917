ghost use Rattle.std.specs.Prelude.{◌≡◌};

use crate::Cause;
use std::alloc::{AllocError, AllocFailed};

/// Why a text gives no input.
#[derive(Clone, Copy, Debug, PartialEq, Eq)]
pub enum ScriptError {
    /// The first line that is refused, counted from 1, and its cause.
    Line { line: u64, cause: Cause },
    /// Memory ran out.
    Memory,
}

impl From<tk_shape::Memory> for ScriptError {
    ghost use Rattle.tk_script.specs.declared.error.ScriptError.TheVariants as error;

    ghost from_gives = { λ _ e. e ≡ error.Memory };

    fn from(_e: tk_shape::Memory) -> ScriptError {
        ScriptError::Memory
    }
}

impl From<AllocError> for ScriptError {
    ghost use Rattle.tk_script.specs.declared.error.ScriptError.TheVariants as error;

    ghost from_gives = { λ _ e. e ≡ error.Memory };

    fn from(_e: AllocError) -> ScriptError {
        ScriptError::Memory
    }
}

impl<T: Drop> From<AllocFailed<T>> for ScriptError {
    ghost use Rattle.tk_script.specs.declared.error.ScriptError.TheVariants as error;

    ghost from_gives = { λ _ e. e ≡ error.Memory };

    fn from(_e: AllocFailed<T>) -> ScriptError {
        ScriptError::Memory
    }
}
