ghost use Rattle.std.specs.Prelude.{◌≡◌};

use std::alloc::{AllocError, AllocFailed};

/// Why lines give no history.
#[derive(Clone, Copy, Debug, PartialEq, Eq)]
pub enum HistoryError {
    /// The number of the first line that isn't the one due.
    Line(u64),
    /// Memory ran out.
    Memory,
}

impl From<tk_shape::Memory> for HistoryError {
    ghost use Rattle.tk_schedule.specs.declared.error.HistoryError.TheVariants as error;

    ghost from_gives = { λ _ e. e ≡ error.Memory };

    fn from(_e: tk_shape::Memory) -> HistoryError {
        HistoryError::Memory
    }
}

impl From<AllocError> for HistoryError {
    ghost use Rattle.tk_schedule.specs.declared.error.HistoryError.TheVariants as error;

    ghost from_gives = { λ _ e. e ≡ error.Memory };

    fn from(_e: AllocError) -> HistoryError {
        HistoryError::Memory
    }
}

impl<T: Drop> From<AllocFailed<T>> for HistoryError {
    ghost use Rattle.tk_schedule.specs.declared.error.HistoryError.TheVariants as error;

    ghost from_gives = { λ _ e. e ≡ error.Memory };

    fn from(_e: AllocFailed<T>) -> HistoryError {
        HistoryError::Memory
    }
}
