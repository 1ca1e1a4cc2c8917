//! The parts of an input of two scripts, for the words that hide a server.
ghost use Rattle.std.specs.Prelude.{◌≡◌, IfOk, IfErr};
ghost use Rattle.tk_script.specs.Printing.{printed_tape};
ghost use Rattle.tk_cli.specs.Hidings.{IsHiding, IsOfTwo};
ghost use Rattle.tk_cli.specs.Inputs.{IsOfRefusal, hiding_refusal};

use crate::input::{history_in, server_in, tape_in};
use crate::status::Status;
use std::alloc::Global;
use tk_schedule::History;
use tk_script::{Input, RawReplies, Script, print_tape};
use tk_shape::{Differs, Memory};
use tk_words::Tape;

/// Two scripts of one shape, a legal history and a whole tape of it, and the replies that were given.
#[derive(Drop)]
pub(crate) struct Hiding {
    pub(crate) first: Script,
    pub(crate) second: Script,
    pub(crate) history: History,
    pub(crate) replies: Option<RawReplies>,
    pub(crate) tape: Tape,
}

/// The parts of an input, unless something refuses it for this hidden server.
pub(crate) fn hiding_in(alloc: Global, hidden: u32, input: Input) -> Result<Hiding, Status>
    requires { IsOfTwo input }
    ensures parts { IfOk result (IsHiding hidden input) }
    ensures refused { IfErr result (IsOfRefusal (hiding_refusal hidden input)) }
{
    let Input {
        first,
        second,
        history,
        replies,
        tape,
    } = input;
    let Some(second) = second else { unreachable!() };
    let tape = tape_in(&first.shape, tape)?;
    if let Some(Differs { field, a, b }) = first.shape.differs(&second.shape) {
        return Err(Status::Shapes { field, a, b });
    }
    let history = history_in(alloc, &first.shape, history)?;
    server_in(&first.shape, hidden)?;
    Ok(Hiding {
        first,
        second,
        history,
        replies,
        tape,
    })
}

/// A tape in its one printed form.
pub(crate) fn tape_text(alloc: Global, tape: &Tape) -> Result<Vec<u8>, Memory>
    ensures { IfOk result (λ text. text.items ≡ printed_tape tape.now) }
{
    let mut text = Vec::new(alloc);
    print_tape(tape, &mut text)?;
    Ok(text)
}
