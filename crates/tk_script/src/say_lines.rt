ghost use Rattle.std.specs.Prelude.{◌≡◌, [], IfOk};
ghost use Rattle.tk_script.specs.Answer.{Agrees};
ghost use Rattle.tk_script.specs.Grammar.{lines_of};
ghost use Rattle.tk_script.specs.Reading.{is_by, last_when, named, out_of_range, read_next_say};
ghost use Rattle.tk_script.specs.Reading.{read_say, to_end, why_not};
ghost use Rattle.tk_script.specs.Stands.{stands};

use crate::fields::three_behind;
use crate::place::Place;
use crate::rows::{LineKind, up_to_end};
use crate::{Cause, Say, Says, ScriptError};
use std::alloc::Global;
use tk_seal::allowed;
use tk_shape::{Bytes, Memory, Shape};

/// The texts up to the line `end`, and the place after it.
pub(crate) fn says_of<'a>(
    alloc: Global,
    shape: &Shape,
    start: Place<'a>,
) -> Result<(Says, Place<'a>), ScriptError>
    ensures { Agrees (λ x. (x.0, stands x.1)) result
        (to_end (read_next_say (named shape.now)) [] start.entry.line
        (lines_of start.entry.rest.now)) }
{
    let (says, rest) = up_to_end(alloc, &SayLines { shape }, start)?;
    Ok((Says::from_vec(says), rest))
}

/// The lines of the texts in a shape, in order.
#[derive(Clone, Copy)]
struct SayLines<'a> {
    shape: &'a Shape,
}

impl<'a> LineKind for SayLines<'a> {
    ghost use Rattle.tk_script.specs.Reading.{named, read_next_say};

    type Item = Say;

    ghost reads = { λ k. read_next_say (named k.shape.now) };

    fn read(
        &self,
        alloc: Global,
        before: &[Say],
        line: &[u8],
    ) -> Result<Result<Say, Cause>, Memory> {
        say_of(alloc, self.shape, last_when(before), line)
    }
}

/// The phase and the tick of the last text, and zeros where there is none.
fn last_when(says: &[Say]) -> (u32, u32)
    ensures { result ≡ last_when says.now }
{
    match says.last() {
        Some(last) => (last.phase, last.tick),
        None => (0, 0),
    }
}

/// The text that a line says after one of the phase and tick `last`: it has room in a block and is
/// allowed, and is all after the space that follows the log.
fn say_of(
    alloc: Global,
    shape: &Shape,
    last: (u32, u32),
    line: &[u8],
) -> Result<Result<Say, Cause>, Memory>
    ensures { IfOk result (λ r. r ≡ read_say (named shape.now) last line.now) }
{
    let Some((phase, tick, log, text)) = three_behind(b"say", line) else {
        return Ok(Err(Cause::Form));
    };
    if let Some(cause) = why_not(shape, last, (phase, tick), log, text) {
        return Ok(Err(cause));
    }
    Ok(Ok(Say {
        phase,
        tick,
        log,
        text: Bytes::from_slice(alloc, text)?,
    }))
}

/// Why a text may not be said on a log, in a phase and a tick, after one of the phase and tick
/// `last`.
fn why_not(
    shape: &Shape,
    last: (u32, u32),
    when: (u32, u32),
    log: u32,
    text: &[u8],
) -> Option<Cause>
    ensures { result ≡ why_not (named shape.now) last when.0 when.1 log text.now }
{
    if let Some(value) = out_of_range(shape, when, log) {
        return Some(Cause::Number { value });
    }
    if !is_by(last, when) {
        return Some(Cause::Order);
    }
    let room = shape.block - 18;
    if text.len() > room as usize {
        return Some(Cause::Room { room });
    }
    match allowed(text) {
        Some(at) => Some(Cause::Text { at: at as u64 }),
        None => None,
    }
}

/// The first of a phase, a tick and a log that is out of range.
fn out_of_range(shape: &Shape, when: (u32, u32), log: u32) -> Option<u32>
    ensures { result ≡ out_of_range (named shape.now) when.0 when.1 log }
{
    if when.0 < 1 || when.0 > shape.phases {
        return Some(when.0);
    }
    if when.1 < 1 || when.1 > shape.ticks {
        return Some(when.1);
    }
    if log >= shape.logs {
        return Some(log);
    }
    None
}

/// Whether the first phase and tick come before the second, or are the same.
fn is_by(first: (u32, u32), second: (u32, u32)) -> bool
    ensures { result ≡ is_by first second }
{
    first.0 < second.0 || (first.0 == second.0 && first.1 <= second.1)
}
