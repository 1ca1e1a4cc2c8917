ghost use Rattle.std.specs.Prelude.{◌≡◌, IfOk};
ghost use Rattle.tk_shape.specs.Lengths.{tape_len};
ghost use Rattle.tk_script.specs.Answer.{Gives, Agrees};
ghost use Rattle.tk_script.specs.Grammar.{lines_of, Spells};
ghost use Rattle.tk_script.specs.Reading.{front, input_lines, read_end, read_input, read_mirror};
ghost use Rattle.tk_script.specs.Reading.{read_run, read_view, read_wrong};
ghost use Rattle.tk_script.specs.Stands.{stands};

use crate::history_section::history_of;
use crate::kinds::Kinds;
use crate::place::Place;
use crate::reply_lines::replies_of;
use crate::section::script_of;
use crate::tape::tape_of;
use crate::two_scripts::two_of;
use crate::{Form, Input, RawTape, Script, ScriptError};
use std::alloc::Global;

/// The input of a form that a text spells, or the first of its lines that is refused: that may also
/// be one after its last.
pub fn parse(alloc: Global, text: &[u8], form: Form) -> Result<Input, ScriptError>
    ensures found { IfOk result (λ input. Spells form text.now input) }
    ensures read { Agrees input_lines result (read_input form (lines_of text.now)) }
    ensures only { (input : Input) → Spells form text.now input → Gives result (λ x. x ≡ input) }
{
    input_of(alloc, text, form)
}

/// The input of a form that the lines of a text say.
fn input_of(alloc: Global, text: &[u8], form: Form) -> Result<Input, ScriptError>
    ensures { Agrees input_lines result (read_input form (lines_of text.now)) }
{
    match form {
        Form::Run => run_of(alloc, Kinds::Either, text),
        Form::Relay => run_of(alloc, Kinds::Keyed, text),
        Form::View => view_of(alloc, text),
        Form::Mirror => mirror_of(alloc, text),
        Form::Wrong => wrong_of(alloc, text),
    }
}

/// A script of these kinds, and the tape of a drawn one.
fn run_of(alloc: Global, kinds: Kinds, text: &[u8]) -> Result<Input, ScriptError>
    ensures { Agrees input_lines result (read_run kinds (lines_of text.now)) }
{
    let (first, rest) = script_of(alloc, kinds, Place::front(text))?;
    let tape = tape_behind(alloc, &first, rest)?;
    Ok(Input {
        first,
        second: None,
        history: None,
        replies: None,
        tape,
    })
}

/// A script, a history, and the tape of a drawn script.
fn view_of(alloc: Global, text: &[u8]) -> Result<Input, ScriptError>
    ensures { Agrees input_lines result (read_view (lines_of text.now)) }
{
    let (first, rest) = script_of(alloc, Kinds::Either, Place::front(text))?;
    let (history, rest) = history_of(alloc, rest)?;
    let tape = tape_behind(alloc, &first, rest)?;
    Ok(Input {
        first,
        second: None,
        history: Some(history),
        replies: None,
        tape,
    })
}

/// Two scripts of drawn words, a history, and the tape of the first script's shape.
fn mirror_of(alloc: Global, text: &[u8]) -> Result<Input, ScriptError>
    ensures { Agrees input_lines result (read_mirror (lines_of text.now)) }
{
    let (two, rest) = two_of(alloc, text)?;
    let tape = tape_behind(alloc, &two.first, rest)?;
    Ok(two.with(None, tape))
}

/// Two scripts of drawn words, a history, replies, and the tape, both of the first script's shape.
fn wrong_of(alloc: Global, text: &[u8]) -> Result<Input, ScriptError>
    ensures { Agrees input_lines result (read_wrong (lines_of text.now)) }
{
    let (two, rest) = two_of(alloc, text)?;
    let (replies, rest) = replies_of(alloc, &two.first.shape, rest)?;
    let tape = tape_behind(alloc, &two.first, rest)?;
    Ok(two.with(Some(replies), tape))
}

/// The tape after a script of drawn words, where it is all that stands from here on; after a
/// keyed script nothing may stand.
fn tape_behind(
    alloc: Global,
    script: &Script,
    start: Place<'_>,
) -> Result<Option<RawTape>, ScriptError>
    ensures { Agrees (λ tape. tape) result
        (read_end script.now.keys (tape_len script.now.shape) (stands start.entry)) }
{
    match &script.keys {
        Some(_) => {
            start.no_line()?;
            Ok(None)
        }
        None => {
            let want = script.shape.tape_len();
            let (tape, rest) = tape_of(alloc, want as usize, start)?;
            rest.no_line()?;
            Ok(Some(tape))
        }
    }
}
