ghost use Rattle.std.specs.Prelude.{◌≡◌};

use tk_shape::Memory as WantOfMemory;

/// Why packets were not put.
#[derive(Clone, Copy, Debug, PartialEq, Eq)]
pub enum PutError {
    Memory,
    /// The sink failed.
    Write,
}

impl From<WantOfMemory> for PutError {
    ghost use Rattle.tk_packets.specs.declared.put_error.PutError.TheVariants as error;

    ghost from_gives = { λ _ e. e ≡ error.Memory };

    fn from(_e: WantOfMemory) -> PutError {
        PutError::Memory
    }
}
