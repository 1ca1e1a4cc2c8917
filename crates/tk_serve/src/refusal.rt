ghost use Rattle.std.specs.Prelude.{◌≡◌};

use tk_frames::{FrameError, Name};

/// Why a frame of a client isn't taken.
#[derive(Clone, Copy, Debug, PartialEq, Eq)]
pub enum Refusal {
    /// It is neither a write nor a read.
    Kind,
    /// A frame of its kind has another length.
    Length,
    /// It has another version.
    Version,
    /// Its first field that is out of range.
    Range(Name),
    /// It is in range, but another client's.
    OtherClient,
    /// It isn't of the client's next turn.
    OtherTurn,
    /// It reads over another epoch than that before its phase's.
    OtherEpoch,
}

impl Refusal {
    ghost use Rattle.tk_serve.specs.Refusals.{code_of, of_fault};

    /// The byte that tells it.
    pub fn code(&self) -> u8
        ensures { result ≡ code_of self.now }
    {
        match self {
            Refusal::Kind => 1,
            Refusal::Length => 2,
            Refusal::Version => 3,
            Refusal::OtherClient => 4,
            Refusal::OtherTurn => 5,
            Refusal::OtherEpoch => 6,
            Refusal::Range(Name::Client) => 7,
            Refusal::Range(Name::Turn) => 8,
            Refusal::Range(Name::First) => 9,
            Refusal::Range(Name::Second) => 10,
            Refusal::Range(Name::Hit) => 11,
            Refusal::Range(Name::Epoch) => 12,
            Refusal::Range(Name::Position) => 13,
        }
    }

    /// The cause that a frame's own fault is; want of memory is none.
    pub(crate) fn of(error: FrameError) -> Option<Refusal>
        ensures { result ≡ of_fault error }
    {
        match error {
            FrameError::Length { .. } => Some(Refusal::Length),
            FrameError::Kind { .. } => Some(Refusal::Kind),
            FrameError::Version { .. } => Some(Refusal::Version),
            FrameError::Field { name, .. } => Some(Refusal::Range(name)),
            FrameError::Memory => None,
        }
    }
}
