//! The status that each error below ends with.
ghost use Rattle.std.specs.Prelude.{◌≡◌};

use crate::status::Status;
use tk_io::ReadError;
use tk_run::RunError;
use tk_schedule::HistoryError;
use tk_script::{BookError, ScriptError};
use tk_shape::Memory;
use tk_words::LiftError;

impl From<ReadError> for Status {
    ghost use Rattle.tk_cli.specs.Errors.{read_status};

    ghost from_gives = { λ e s. s ≡ read_status e };

    fn from(error: ReadError) -> Status {
        match error {
            ReadError::Fault => Status::Read,
            ReadError::TooLong => Status::TooLong,
            ReadError::Memory => Status::Memory,
        }
    }
}

impl From<ScriptError> for Status {
    ghost use Rattle.tk_cli.specs.Errors.{script_status};

    ghost from_gives = { λ e s. s ≡ script_status e };

    fn from(error: ScriptError) -> Status {
        match error {
            ScriptError::Line { line, cause } => Status::Script { line, cause },
            ScriptError::Memory => Status::Memory,
        }
    }
}

impl From<BookError> for Status {
    ghost use Rattle.tk_cli.specs.Errors.{book_status};

    ghost from_gives = { λ e s. s ≡ book_status e };

    fn from(error: BookError) -> Status {
        match error {
            BookError::Tape { want, got } => Status::Tape { want, got },
            BookError::Memory => Status::Memory,
        }
    }
}

impl From<LiftError> for Status {
    ghost use Rattle.tk_cli.specs.Errors.{lift_status};

    ghost from_gives = { λ e s. s ≡ lift_status e };

    fn from(error: LiftError) -> Status {
        match error {
            LiftError::Wide { want } => Status::Wide { want },
            LiftError::Memory => Status::Memory,
        }
    }
}

impl From<HistoryError> for Status {
    ghost use Rattle.tk_cli.specs.Errors.{history_status};

    ghost from_gives = { λ e s. s ≡ history_status e };

    fn from(error: HistoryError) -> Status {
        match error {
            HistoryError::Line(at) => Status::History { at },
            HistoryError::Memory => Status::Memory,
        }
    }
}

impl From<RunError> for Status {
    ghost use Rattle.tk_cli.specs.Errors.{run_status};

    ghost from_gives = { λ e s. s ≡ run_status e };

    fn from(error: RunError) -> Status {
        match error {
            RunError::Taps => Status::Write,
            RunError::Memory => Status::Memory,
        }
    }
}

impl From<Memory> for Status {
    ghost use Rattle.tk_cli.specs.declared.status.Status.TheVariants as status;

    ghost from_gives = { λ _ s. s ≡ status.Memory };

    fn from(_error: Memory) -> Status {
        Status::Memory
    }
}
