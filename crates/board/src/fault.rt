use std::alloc::{AllocError, AllocFailed};
use std::io;
use tk_checkpoint::{CheckpointError, RestoreError};
use tk_client::{SayError, TakeError};
use tk_frames::FrameError;
use tk_replica::{PinError, ServeError};
use tk_shape::{Memory, ShapeError};

/// Why the board ends.
#[derive(Debug, Drop)]
pub enum Fault {
    /// Numbers that are no shape.
    Shape(ShapeError),
    /// A text that the member may not say.
    Say(SayError),
    /// A member that has written in all turns, or said as many texts; servers with too many entries.
    Over,
    /// A member that reads before it wrote or while a read is open, or gets replies to none.
    Unasked,
    /// A number, an epoch, frames or replies of another shape.
    OtherShape,
    /// Bytes that are no entry.
    Frame(FrameError),
    /// An entry that isn't the next one of a server that has applied so many.
    NotNext { applied: u64 },
    /// An epoch that servers don't keep.
    Pin(PinError),
    /// A read that a server doesn't answer.
    Serve(ServeError),
    /// Replies that the member refuses.
    Take(TakeError),
    /// A server that isn't saved.
    Checkpoint(CheckpointError),
    /// Bytes that give no server.
    Restore(RestoreError),
    /// What is printed can't be written.
    Output(io::Error),
    Memory,
}

impl From<ShapeError> for Fault {
    fn from(error: ShapeError) -> Fault {
        Fault::Shape(error)
    }
}

impl From<SayError> for Fault {
    fn from(error: SayError) -> Fault {
        Fault::Say(error)
    }
}

impl From<FrameError> for Fault {
    fn from(error: FrameError) -> Fault {
        Fault::Frame(error)
    }
}

impl From<PinError> for Fault {
    fn from(error: PinError) -> Fault {
        Fault::Pin(error)
    }
}

impl From<ServeError> for Fault {
    fn from(error: ServeError) -> Fault {
        Fault::Serve(error)
    }
}

impl From<TakeError> for Fault {
    fn from(error: TakeError) -> Fault {
        Fault::Take(error)
    }
}

impl From<CheckpointError> for Fault {
    fn from(error: CheckpointError) -> Fault {
        Fault::Checkpoint(error)
    }
}

impl From<RestoreError> for Fault {
    fn from(error: RestoreError) -> Fault {
        Fault::Restore(error)
    }
}

impl From<io::Error> for Fault {
    fn from(error: io::Error) -> Fault {
        Fault::Output(error)
    }
}

impl From<Memory> for Fault {
    fn from(_e: Memory) -> Fault {
        Fault::Memory
    }
}

impl From<AllocError> for Fault {
    fn from(_e: AllocError) -> Fault {
        Fault::Memory
    }
}

impl<T: Drop> From<AllocFailed<T>> for Fault {
    fn from(_e: AllocFailed<T>) -> Fault {
        Fault::Memory
    }
}
