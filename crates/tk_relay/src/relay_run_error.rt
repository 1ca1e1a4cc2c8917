ghost use Rattle.std.specs.Prelude.{◌≡◌};

use std::alloc::AllocError;
use tk_io::Failed;
use tk_shape::Memory as WantOfMemory;

/// Why a run whose reads are relayed ends early.
#[derive(Clone, Copy, Debug, PartialEq, Eq)]
pub enum RelayRunError {
    /// A tap fails, and its count of faults rose.
    Taps,
    /// Want of memory.
    Memory,
}

impl From<Failed> for RelayRunError {
    ghost use Rattle.tk_relay.specs.declared.relay_run_error.RelayRunError.TheVariants as error;

    ghost from_gives = { λ _ e. e ≡ error.Taps };

    fn from(_e: Failed) -> RelayRunError {
        RelayRunError::Taps
    }
}

impl From<WantOfMemory> for RelayRunError {
    ghost use Rattle.tk_relay.specs.declared.relay_run_error.RelayRunError.TheVariants as error;

    ghost from_gives = { λ _ e. e ≡ error.Memory };

    fn from(_e: WantOfMemory) -> RelayRunError {
        RelayRunError::Memory
    }
}

impl From<AllocError> for RelayRunError {
    ghost use Rattle.tk_relay.specs.declared.relay_run_error.RelayRunError.TheVariants as error;

    ghost from_gives = { λ _ e. e ≡ error.Memory };

    fn from(_e: AllocError) -> RelayRunError {
        RelayRunError::Memory
    }
}
