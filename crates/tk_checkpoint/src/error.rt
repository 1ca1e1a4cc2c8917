ghost use Rattle.std.specs.Prelude.{◌≡◌};

use std::alloc::AllocError;
use tk_shape::{Differs, Memory as WantOfMemory};

/// Why a state isn't written.
#[derive(Clone, Copy, Debug, PartialEq, Eq)]
pub enum CheckpointError {
    /// It has applied entries behind the last mark, which stands at `upto`.
    NotAtMark { applied: u64, upto: u64 },
    /// There is no room for the bytes.
    Memory,
}

/// Why bytes give no state.
#[derive(Clone, Copy, Debug, PartialEq, Eq)]
pub enum RestoreError {
    /// Bytes wanted, and bytes there.
    Length { want: u64, got: u64 },
    /// The first four bytes aren't those of a checkpoint.
    Magic,
    /// The fifth byte, which is 1 in a checkpoint.
    Version { got: u8 },
    /// The first of format and numbers in which the shape that was wanted and that of the bytes
    /// differ.
    Shape(Differs),
    /// More entries than a run of the shape has.
    Applied { got: u64 },
    /// No number of a last mark among so many entries.
    Last { got: u32 },
    /// Writes that a window has behind so many, and those there.
    Count { want: u32, got: u32 },
    /// The first write of the window that isn't sound.
    Window { at: u32 },
    /// The first slot that isn't sound.
    Slot { bucket: u32, slot: u32 },
    /// The bytes are sound, but there is no room for a state.
    Memory,
}

impl From<AllocError> for CheckpointError {
    ghost use Rattle.tk_checkpoint.specs.declared.error.CheckpointError.TheVariants.{Memory};

    ghost from_gives = { λ _ e. e ≡ Memory };

    fn from(_e: AllocError) -> CheckpointError {
        CheckpointError::Memory
    }
}

impl From<AllocError> for RestoreError {
    ghost use Rattle.tk_checkpoint.specs.declared.error.RestoreError.TheVariants.{Memory};

    ghost from_gives = { λ _ e. e ≡ Memory };

    fn from(_e: AllocError) -> RestoreError {
        RestoreError::Memory
    }
}

impl From<WantOfMemory> for RestoreError {
    ghost use Rattle.tk_checkpoint.specs.declared.error.RestoreError.TheVariants.{Memory};

    ghost from_gives = { λ _ e. e ≡ Memory };

    fn from(_e: WantOfMemory) -> RestoreError {
        RestoreError::Memory
    }
}
