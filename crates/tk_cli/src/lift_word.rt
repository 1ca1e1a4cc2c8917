//! The word `lift`: an input's script in format 2, and the tape of a drawn one.
ghost use Rattle.std.specs.Prelude.{◌≡◌, ◌≤◌, ℕ, List, None, IsSome, IfOk, IfErr, Err};
ghost use Rattle.tk_io.specs.Content.{TakesUpTo};
ghost use Rattle.tk_cli.specs.Endings.{IsTextFor, IsAnswered, IsLiftedText};
ghost use Rattle.tk_cli.specs.Inputs.{IsSpelled, Refuses, Stops};
ghost use Rattle.tk_cli.specs.Limits.{input_limit};

use crate::input::{input_from, tape_in};
use crate::request::Request;
use crate::status::Status;
use std::alloc::Global;
use tk_io::Source;
use tk_script::{Form, Input, Script, lift, print, print_tape};
use tk_shape::Memory;
use tk_words::lift_tape;

/// An input's script in format 2, and the tape of a drawn one, in their one printed form.
pub(crate) fn lift_text<S: Source>(alloc: Global, source: &mut S) -> Result<Vec<u8>, Status>
    ensures made { IfOk result (λ text. IsAnswered Request.Lift
        (S.left source.old) (S.left source.new) text.items) }
    ensures stopped { IfErr result (λ s. Stops Request.Lift s
        (S.left source.old) (S.left source.new) (S.faults source.old) (S.faults source.new)) }
    ensures taken { (taken : List ℕ) × TakesUpTo input_limit (S.left source.old)
        (S.left source.new) (result ≡ Err Status.TooLong) taken }
    ensures counts { S.faults source.old ≤ S.faults source.new }
{
    let input = input_from(alloc, source, Form::Run)?;
    lifted(alloc, input)
}

/// The text of an input in format 2, unless something refuses it.
fn lifted(alloc: Global, input: Input) -> Result<Vec<u8>, Status>
    requires { IsSpelled Form.Run input }
    ensures answer { IfOk result (λ text. IsTextFor Request.Lift input text.items) }
    ensures refused { IfErr result (Refuses Request.Lift input) }
{
    if input.first.keys.is_some() {
        return Ok(keyed_text(alloc, &input.first)?);
    }
    drawn_text(alloc, input)
}

/// The text of a keyed script, for which only memory may be wanting.
fn keyed_text(alloc: Global, script: &Script) -> Result<Vec<u8>, Memory>
    requires { IsSome script.now.keys }
    ensures { IfOk result (λ text. IsLiftedText script.now text.items) }
{
    let script = lift(script)?;
    let mut text = Vec::new(alloc);
    print(&script, &mut text)?;
    Ok(text)
}

/// The text of a drawn script and its tape.
fn drawn_text(alloc: Global, input: Input) -> Result<Vec<u8>, Status>
    requires spelled { IsSpelled Form.Run input }
    requires drawn { input.first.keys ≡ None }
    ensures answer { IfOk result (λ text. IsTextFor Request.Lift input text.items) }
    ensures refused { IfErr result (Refuses Request.Lift input) }
{
    let Input { first, tape, .. } = input;
    let tape = tape_in(&first.shape, tape)?;
    let lifted = lift_tape(&first.shape, &tape)?;
    let script = lift(&first)?;
    let mut text = Vec::new(alloc);
    print(&script, &mut text)?;
    print_tape(&lifted, &mut text)?;
    Ok(text)
}
