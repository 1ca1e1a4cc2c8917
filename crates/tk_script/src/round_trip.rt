ghost use Rattle.std.specs.Prelude.{◌≡◌, Some, None};
ghost use Rattle.tk_script.specs.Answer.{Gives};
ghost use Rattle.tk_script.specs.Grammar.{kept_of};
ghost use Rattle.tk_script.specs.declared.keys.Keys.{Keys};

use crate::tape_text::print_bytes;
use crate::{Form, Input, Script, ScriptError, parse, print};
use std::alloc::Global;

/// What `parse` answers of a printed script of keys: the same script.
pub fn parse_printed(alloc: Global, script: &Script) -> Result<Input, ScriptError>
    ensures same { (keys : Keys) → script.now.keys ≡ Some keys →
        Gives result (λ input. input ≡
        record {
          first = script.now;
          second = None;
          history = None;
          replies = None;
          tape = None;
        }) }
{
    let mut text = Vec::new(alloc);
    print(script, &mut text)?;
    parse(alloc, text.as_slice(), Form::Run)
}

/// What `parse` answers of a printed script of drawn words with a printed tape after it: the same
/// script, and what is kept of the same tape.
pub fn parse_printed_with(alloc: Global, script: &Script, tape: &[u8]) -> Result<Input, ScriptError>
    ensures same { script.now.keys ≡ None →
        Gives result (λ input. input ≡
        record {
          first = script.now;
          second = None;
          history = None;
          replies = None;
          tape = Some (kept_of script.now.shape tape.now);
        }) }
{
    let mut text = Vec::new(alloc);
    print(script, &mut text)?;
    print_bytes(tape, &mut text)?;
    parse(alloc, text.as_slice(), Form::Run)
}
