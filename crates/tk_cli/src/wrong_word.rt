//! The word `wrong`: the tape over which another script shows the same to all servers but one, while these reply as
//! they please.
ghost use Rattle.std.specs.Prelude.{◌≡◌, ◌≤◌, ℕ, List, IfOk, IfErr, Err};
ghost use Rattle.tk_io.specs.Content.{TakesUpTo};
ghost use Rattle.std.specs.List.{AllByRecursion};
ghost use Rattle.tk_script.specs.SoundReplies.{IsReply};
ghost use Rattle.tk_hostile.specs.Given.{sums_at};
ghost use Rattle.tk_cli.specs.Chosen.{HasReplies, chosen, sums_chosen};
ghost use Rattle.tk_cli.specs.Endings.{IsTextFor, IsAnswered};
ghost use Rattle.tk_cli.specs.Inputs.{IsSpelled, Refuses, Stops};
ghost use Rattle.tk_cli.specs.Limits.{input_limit};

use crate::hiding::{Hiding, hiding_in, tape_text};
use crate::input::input_from;
use crate::request::Request;
use crate::status::Status;
use std::alloc::Global;
use tk_hostile::{Replies, wrong_mirror};
use tk_io::Source;
use tk_script::{Form, Input, RawReplies, RawReply};
use tk_shape::{Memory, Shape};

/// The mirrored tape of an input's two scripts under its replies, in its one printed form.
pub(crate) fn wrong_text<S: Source>(
    alloc: Global,
    hidden: u32,
    source: &mut S,
) -> Result<Vec<u8>, Status>
    ensures made { IfOk result (λ text. IsAnswered (Request.Wrong hidden)
        (S.left source.old) (S.left source.new) text.items) }
    ensures stopped { IfErr result (λ s. Stops (Request.Wrong hidden) s
        (S.left source.old) (S.left source.new) (S.faults source.old) (S.faults source.new)) }
    ensures taken { (taken : List ℕ) × TakesUpTo input_limit (S.left source.old)
        (S.left source.new) (result ≡ Err Status.TooLong) taken }
    ensures counts { S.faults source.old ≤ S.faults source.new }
{
    let input = input_from(alloc, source, Form::Wrong)?;
    under_replies(alloc, hidden, input)
}

/// The mirrored tape of two scripts under replies, unless something refuses it.
fn under_replies(alloc: Global, hidden: u32, input: Input) -> Result<Vec<u8>, Status>
    requires { IsSpelled Form.Wrong input }
    ensures answer { IfOk result (λ text. IsTextFor (Request.Wrong hidden) input text.items) }
    ensures refused { IfErr result (Refuses (Request.Wrong hidden) input) }
{
    let Hiding {
        first,
        second,
        history,
        replies,
        tape,
    } = hiding_in(alloc, hidden, input)?;
    let replies = replies_in(alloc, &first.shape, replies)?;
    // the shapes and the server were asked before, so that only memory may be wanting
    let Ok(tape) = wrong_mirror(alloc, &first, &second, &history, hidden, &replies, tape) else {
        return Err(Status::Memory);
    };
    Ok(tape_text(alloc, &tape)?)
}

/// The sums that an input's lines choose.
fn replies_in(alloc: Global, shape: &Shape, raw: Option<RawReplies>) -> Result<Replies, Memory>
    requires { HasReplies shape.now raw }
    ensures shape { IfOk result (λ replies. replies.shape ≡ shape.now) }
    ensures sums { IfOk result (λ replies. sums_at replies ≡ chosen shape.now raw) }
{
    let Some(raw) = raw else { unreachable!() };
    replies_of(alloc, shape, raw.as_slice())
}

/// The sums that lines choose, set from the last line on.
fn replies_of(alloc: Global, shape: &Shape, lines: &[RawReply]) -> Result<Replies, Memory>
    requires { AllByRecursion (IsReply shape.now) lines.now }
    ensures shape { IfOk result (λ replies. replies.shape ≡ shape.now) }
    ensures sums { IfOk result (λ replies. sums_at replies ≡ sums_chosen shape.now lines.now) }
{
    let mut replies = Replies::new(alloc, shape)?;
    let mut rest = lines;
    'lines: while !rest.is_empty() {
        let last = rest.len() - 1;
        let line = &rest[last];
        let (first, second) = (line.first.as_slice(), line.second.as_slice());
        replies.set(alloc, line.turn, line.client, line.server, first, second)?;
        rest = &rest[..last];
    }
    Ok(replies)
}
