ghost use Rattle.std.specs.Prelude.{◌≡◌};

use std::alloc::{AllocError, AllocFailed};
use tk_shape::Memory as WantOfMemory;

/// Why the parts of a read can't be gathered. Servers are counted from 1.
#[derive(Clone, Copy, Debug, PartialEq, Eq)]
pub enum GatherError {
    /// The first part that names another client, turn or epoch, tried in this order, than the first server's.
    Named { server: u32, want: u32, got: u32 },
    Memory,
}

impl From<WantOfMemory> for GatherError {
    ghost use Rattle.tk_relay.specs.declared.gather_error.GatherError.TheVariants.{Memory};

    ghost from_gives = { λ _ e. e ≡ Memory };

    fn from(_e: WantOfMemory) -> GatherError {
        GatherError::Memory
    }
}

impl From<AllocError> for GatherError {
    ghost use Rattle.tk_relay.specs.declared.gather_error.GatherError.TheVariants.{Memory};

    ghost from_gives = { λ _ e. e ≡ Memory };

    fn from(_e: AllocError) -> GatherError {
        GatherError::Memory
    }
}

impl<T: Drop> From<AllocFailed<T>> for GatherError {
    ghost use Rattle.tk_relay.specs.declared.gather_error.GatherError.TheVariants.{Memory};

    ghost from_gives = { λ _ e. e ≡ Memory };

    fn from(_e: AllocFailed<T>) -> GatherError {
        GatherError::Memory
    }
}
