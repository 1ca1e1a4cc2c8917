ghost use Rattle.std.specs.Prelude.{◌≡◌};

use std::alloc::{AllocError, AllocFailed};
use std::io;
use tk_client::{SayError, TakeError};
use tk_frames::FrameError;
use tk_replica::{PinError, ServeError};
use tk_shape::{Memory, ShapeError};

/// Why no text comes.
#[derive(Debug, Drop)]
pub enum Fault {
    /// Numbers that are no shape.
    Shape(ShapeError),
    /// A text that the client may not say.
    Say(SayError),
    /// Bytes that are no frame of their kind.
    Frame(FrameError),
    /// An entry that isn't the next one of a server that has applied so many.
    NotNext { applied: u64 },
    /// An epoch that the first server doesn't keep.
    Pin(PinError),
    /// A read that a server doesn't answer.
    Serve(ServeError),
    /// Replies that the client refuses.
    Take(TakeError),
    /// What is printed can't be written.
    Output(io::Error),
    Memory,
}

impl From<ShapeError> for Fault {
    ghost use Rattle.embed.specs.declared.fault.Fault.TheVariants as faults;

    ghost from_gives = { λ error fault. fault ≡ faults.Shape error };

    fn from(error: ShapeError) -> Fault {
        Fault::Shape(error)
    }
}

impl From<SayError> for Fault {
    ghost use Rattle.embed.specs.Faults.{told_say};

    ghost from_gives = { λ error fault. fault ≡ told_say error };

    fn from(error: SayError) -> Fault {
        match error {
            SayError::Memory => Fault::Memory,
            error => Fault::Say(error),
        }
    }
}

impl From<FrameError> for Fault {
    ghost use Rattle.embed.specs.Faults.{told_frame};

    ghost from_gives = { λ error fault. fault ≡ told_frame error };

    fn from(error: FrameError) -> Fault {
        match error {
            FrameError::Memory => Fault::Memory,
            error => Fault::Frame(error),
        }
    }
}

impl From<PinError> for Fault {
    ghost use Rattle.embed.specs.Faults.{told_pin};

    ghost from_gives = { λ error fault. fault ≡ told_pin error };

    fn from(error: PinError) -> Fault {
        match error {
            PinError::Memory => Fault::Memory,
            error => Fault::Pin(error),
        }
    }
}

impl From<ServeError> for Fault {
    ghost use Rattle.embed.specs.Faults.{told_serve};

    ghost from_gives = { λ error fault. fault ≡ told_serve error };

    fn from(error: ServeError) -> Fault {
        match error {
            ServeError::Memory => Fault::Memory,
            error => Fault::Serve(error),
        }
    }
}

impl From<TakeError> for Fault {
    ghost use Rattle.embed.specs.Faults.{told_take};

    ghost from_gives = { λ error fault. fault ≡ told_take error };

    fn from(error: TakeError) -> Fault {
        match error {
            TakeError::Memory => Fault::Memory,
            error => Fault::Take(error),
        }
    }
}

impl From<io::Error> for Fault {
    ghost use Rattle.embed.specs.declared.fault.Fault.TheVariants as faults;

    ghost from_gives = { λ error fault. fault ≡ faults.Output error };

    fn from(error: io::Error) -> Fault {
        Fault::Output(error)
    }
}

impl From<Memory> for Fault {
    ghost use Rattle.embed.specs.declared.fault.Fault.TheVariants as faults;

    ghost from_gives = { λ _ e. e ≡ faults.Memory };

    fn from(_e: Memory) -> Fault {
        Fault::Memory
    }
}

impl From<AllocError> for Fault {
    ghost use Rattle.embed.specs.declared.fault.Fault.TheVariants as faults;

    ghost from_gives = { λ _ e. e ≡ faults.Memory };

    fn from(_e: AllocError) -> Fault {
        Fault::Memory
    }
}

impl<T: Drop> From<AllocFailed<T>> for Fault {
    ghost use Rattle.embed.specs.declared.fault.Fault.TheVariants as faults;

    ghost from_gives = { λ _ e. e ≡ faults.Memory };

    fn from(_e: AllocFailed<T>) -> Fault {
        Fault::Memory
    }
}
