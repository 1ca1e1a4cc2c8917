//! The word `mirror`: the tape over which another script shows the same to all servers but one.
ghost use Rattle.std.specs.Prelude.{◌≡◌, ◌≤◌, ℕ, List, IfOk, IfErr, Err};
ghost use Rattle.tk_io.specs.Content.{TakesUpTo};
ghost use Rattle.tk_cli.specs.Endings.{IsTextFor, IsAnswered};
ghost use Rattle.tk_cli.specs.Inputs.{IsSpelled, Refuses, Stops};
ghost use Rattle.tk_cli.specs.Limits.{input_limit};

use crate::hiding::{Hiding, hiding_in, tape_text};
use crate::input::input_from;
use crate::request::Request;
use crate::status::Status;
use std::alloc::Global;
use tk_io::Source;
use tk_privacy::mirror;
use tk_script::{Form, Input};

/// The mirrored tape of an input's two scripts, in its one printed form.
pub(crate) fn mirror_text<S: Source>(
    alloc: Global,
    hidden: u32,
    source: &mut S,
) -> Result<Vec<u8>, Status>
    ensures made { IfOk result (λ text. IsAnswered (Request.Mirror hidden)
        (S.left source.old) (S.left source.new) text.items) }
    ensures stopped { IfErr result (λ s. Stops (Request.Mirror hidden) s
        (S.left source.old) (S.left source.new) (S.faults source.old) (S.faults source.new)) }
    ensures taken { (taken : List ℕ) × TakesUpTo input_limit (S.left source.old)
        (S.left source.new) (result ≡ Err Status.TooLong) taken }
    ensures counts { S.faults source.old ≤ S.faults source.new }
{
    let input = input_from(alloc, source, Form::Mirror)?;
    mirrored(alloc, hidden, input)
}

/// The mirrored tape of two scripts, unless something refuses it.
fn mirrored(alloc: Global, hidden: u32, input: Input) -> Result<Vec<u8>, Status>
    requires { IsSpelled Form.Mirror input }
    ensures answer { IfOk result (λ text. IsTextFor (Request.Mirror hidden) input text.items) }
    ensures refused { IfErr result (Refuses (Request.Mirror hidden) input) }
{
    let Hiding {
        first,
        second,
        history,
        tape,
        ..
    } = hiding_in(alloc, hidden, input)?;
    // the shapes and the server were asked before, so that only memory may be wanting
    let Ok(tape) = mirror(alloc, &first, &second, &history, hidden, tape) else {
        return Err(Status::Memory);
    };
    Ok(tape_text(alloc, &tape)?)
}
