//! The input of a request, and what refuses it.
ghost use Rattle.std.specs.Prelude.{◌≡◌, ◌≤◌, ℕ, List, None, Some, IsSome, IfOk, IfErr, OnOk, Err};
ghost use Rattle.tk_io.specs.Content.{TakesUpTo};
ghost use Rattle.tk_schedule.specs.Told.{Names};
ghost use Rattle.tk_script.specs.Book.{HasTape, IsOtherTape, IsWholeTape};
ghost use Rattle.tk_cli.specs.Inputs.{kept_in, HasScript, ReadsWhole, StopsForm};
ghost use Rattle.tk_cli.specs.Inputs.{HasHistory, bad_history_line, phase_refusal, server_refusal};
ghost use Rattle.tk_cli.specs.Limits.{input_limit};

use crate::status::Status;
use std::alloc::Global;
use tk_io::{Source, read_all};
use tk_schedule::{History, HistoryError, RawHistory};
use tk_script::{BookError, Form, Input, RawTape, Script, parse};
use tk_shape::Shape;
use tk_words::{Book, Tape};

/// The most bytes of an input.
const INPUT_LIMIT: usize = 8388608;

/// The first script of an input of a form that all bytes of the source spell, and the words of its book; or the status
/// that a run ends with.
pub(crate) fn ready<S: Source>(
    alloc: Global,
    source: &mut S,
    form: Form,
) -> Result<(Script, Book), Status>
    ensures ready { IfOk result (λ x.
        HasScript form (S.left source.old) (S.left source.new) x.0 x.1) }
    ensures stopped { IfErr result (λ s. StopsForm form s (S.left source.old) (S.left source.new)
        (S.faults source.old) (S.faults source.new)) }
    ensures taken { (taken : List ℕ) × TakesUpTo input_limit (S.left source.old)
        (S.left source.new) (result ≡ Err Status.TooLong) taken }
    ensures counts { S.faults source.old ≤ S.faults source.new }
{
    let Input { first, tape, .. } = input_from(alloc, source, form)?;
    let book = first.book(alloc, tape)?;
    Ok((first, book))
}

/// The input of a form that all bytes of the source spell.
pub(crate) fn input_from<S: Source>(
    alloc: Global,
    source: &mut S,
    form: Form,
) -> Result<Input, Status>
    ensures read { IfOk result (λ input.
        ReadsWhole form (S.left source.old) (S.left source.new) input) }
    ensures stopped { IfErr result (λ s. StopsForm form s (S.left source.old) (S.left source.new)
        (S.faults source.old) (S.faults source.new)) }
    ensures taken { (taken : List ℕ) × TakesUpTo input_limit (S.left source.old)
        (S.left source.new) (result ≡ Err Status.TooLong) taken }
    ensures counts { S.faults source.old ≤ S.faults source.new }
{
    let text = read_all(alloc, source, INPUT_LIMIT)?;
    Ok(parse(alloc, text.as_slice(), form)?)
}

/// The history that an input has, in which each line has to be the one due.
pub(crate) fn history_in(
    alloc: Global,
    shape: &Shape,
    raw: Option<RawHistory>,
) -> Result<History, HistoryError>
    requires { IsSome raw }
    ensures told { IfOk result (λ history. HasHistory shape.now raw history) }
    ensures bad { Names (λ history. None) result (bad_history_line shape.now raw) }
{
    let Some(raw) = raw else { unreachable!() };
    History::from_raw(alloc, shape, &raw)
}

/// Asks that a number is one of a shape's servers.
pub(crate) fn server_in(shape: &Shape, got: u32) -> Result<(), Status>
    ensures low { OnOk result (1 ≤ got) }
    ensures high { OnOk result (got ≤ shape.now.servers) }
    ensures ok { OnOk result (server_refusal got shape.now.servers ≡ None) }
    ensures hidden { IfErr result (λ s. s ≡ Status.Hidden got shape.now.servers) }
    ensures err { IfErr result (λ s. server_refusal got shape.now.servers ≡ Some s) }
{
    let servers = shape.servers;
    if got < 1 || got > servers {
        return Err(Status::Hidden { got, servers });
    }
    Ok(())
}

/// Asks that a number is one of a run's epochs, of which each phase ends with one.
pub(crate) fn epoch_in(shape: &Shape, got: u32) -> Result<(), Status>
    ensures within { OnOk result (got ≤ shape.now.phases) }
    ensures ok { OnOk result (phase_refusal got shape.now.phases ≡ None) }
    ensures phase { IfErr result (λ s. s ≡ Status.Phase got shape.now.phases) }
    ensures err { IfErr result (λ s. phase_refusal got shape.now.phases ≡ Some s) }
{
    let phases = shape.phases;
    if got > phases {
        return Err(Status::Phase { got, phases });
    }
    Ok(())
}

/// The tape of an input of drawn words, which has to have the length that a shape wants.
pub(crate) fn tape_in(shape: &Shape, tape: Option<RawTape>) -> Result<Tape, BookError>
    requires { HasTape shape.now None tape }
    ensures whole { OnOk result (IsWholeTape shape.now tape) }
    ensures kept { IfOk result (λ x. x ≡ kept_in tape) }
    ensures other { (want got : ℕ) → result ≡ Err (BookError.Tape want got) →
        IsOtherTape shape.now tape want got }
{
    let Some(tape) = tape else { unreachable!() };
    let (want, got) = (shape.tape_len(), tape.got);
    if got != want {
        return Err(BookError::Tape { want, got });
    }
    match Tape::from_bytes(shape, tape.bytes.into_vec()) {
        Ok(tape) => Ok(tape),
        Err(_) => Err(BookError::Tape { want, got }),
    }
}
