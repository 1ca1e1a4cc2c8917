ghost use Rattle.std.specs.Prelude.{◌≡◌};

use tk_shape::{Differs, Memory as WantOfMemory};

/// Why no tape is given over which another script shows the same.
#[derive(Clone, Copy, Debug, PartialEq, Eq)]
pub enum MirrorError {
    /// The scripts' shapes differ.
    Shapes(Differs),
    /// The hidden server isn't one of the servers, which are numbered from 1.
    Hidden { got: u32, servers: u32 },
    Memory,
}

impl From<WantOfMemory> for MirrorError {
    ghost use Rattle.tk_privacy.specs.declared.mirror_error.MirrorError.TheVariants.{Memory};

    ghost from_gives = { λ _ e. e ≡ Memory };

    fn from(_e: WantOfMemory) -> MirrorError {
        MirrorError::Memory
    }
}
