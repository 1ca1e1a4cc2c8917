ghost use Rattle.std.specs.Prelude.{◌≡◌, ◌≢◌};

use crate::run_error::RunError;
use std::alloc::AllocError;
use tk_io::Failed;
use tk_shape::Memory;

/// Why a run ends early whose servers begin anew.
#[derive(Clone, Copy, Debug, PartialEq, Eq)]
pub enum ResumeError {
    /// A tap fails, and its count of faults rose.
    Taps,
    /// A server was given what isn't sound, or not of as many entries and marks as it has.
    Refused,
    /// Want of memory.
    Memory,
}

impl From<Failed> for ResumeError {
    ghost use Rattle.tk_run.specs.declared.resume_error.ResumeError.TheVariants as error;

    ghost from_gives = { λ _ e. e ≡ error.Taps };

    fn from(_e: Failed) -> ResumeError {
        ResumeError::Taps
    }
}

impl From<Memory> for ResumeError {
    ghost use Rattle.tk_run.specs.declared.resume_error.ResumeError.TheVariants as error;

    ghost from_gives = { λ _ e. e ≡ error.Memory };

    fn from(_e: Memory) -> ResumeError {
        ResumeError::Memory
    }
}

impl From<AllocError> for ResumeError {
    ghost use Rattle.tk_run.specs.declared.resume_error.ResumeError.TheVariants as error;

    ghost from_gives = { λ _ e. e ≡ error.Memory };

    fn from(_e: AllocError) -> ResumeError {
        ResumeError::Memory
    }
}

/// Why a run ends early whose servers refuse nothing.
pub(crate) fn run_error(e: ResumeError) -> RunError
    requires { e ≢ ResumeError.Refused }
    ensures { result ≡ RunError.Taps → e ≡ ResumeError.Taps }
{
    match e {
        ResumeError::Taps => RunError::Taps,
        ResumeError::Memory => RunError::Memory,
        ResumeError::Refused => unreachable!(),
    }
}
