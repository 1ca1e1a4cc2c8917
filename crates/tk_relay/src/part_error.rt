ghost use Rattle.std.specs.Prelude.{◌≡◌};

use std::alloc::{AllocError, AllocFailed};
use tk_shape::Memory as WantOfMemory;

/// Why a server doesn't serve a part of a read.
#[derive(Clone, Copy, Debug, PartialEq, Eq)]
pub enum PartError {
    /// It names another epoch; the set's number, and the part's.
    Epoch { want: u32, got: u32 },
    Memory,
}

impl From<WantOfMemory> for PartError {
    ghost use Rattle.tk_relay.specs.declared.part_error.PartError.TheVariants.{Memory};

    ghost from_gives = { λ _ e. e ≡ Memory };

    fn from(_e: WantOfMemory) -> PartError {
        PartError::Memory
    }
}

impl From<AllocError> for PartError {
    ghost use Rattle.tk_relay.specs.declared.part_error.PartError.TheVariants.{Memory};

    ghost from_gives = { λ _ e. e ≡ Memory };

    fn from(_e: AllocError) -> PartError {
        PartError::Memory
    }
}

impl<T: Drop> From<AllocFailed<T>> for PartError {
    ghost use Rattle.tk_relay.specs.declared.part_error.PartError.TheVariants.{Memory};

    ghost from_gives = { λ _ e. e ≡ Memory };

    fn from(_e: AllocFailed<T>) -> PartError {
        PartError::Memory
    }
}
