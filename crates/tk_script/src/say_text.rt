ghost use Rattle.std.specs.Prelude.{◌≡◌, ◌++◌, ◌∷◌, [], map, OnOk};
ghost use Rattle.tk_script.specs.Grammar.{say_line};
ghost use Rattle.tk_script.specs.Printing.{text_of};

use crate::Say;
use crate::line_text::{push_field, push_line};
use std::alloc::Global;
use tk_shape::Memory;

/// Appends a line for each text.
pub(crate) fn push_says(alloc: Global, says: &[Say], out: &mut Vec<u8>) -> Result<(), Memory>
    ensures ok { OnOk result (out.new.items ≡ out.old.items ++ text_of (map say_line says.now)) }
{
    for say in says {
        push_say(alloc, say, out)?;
    }
    Ok(())
}

/// Appends the line of a text: the phase, the tick and the log, then the text.
fn push_say(alloc: Global, say: &Say, out: &mut Vec<u8>) -> Result<(), Memory>
    ensures ok { OnOk result (out.new.items ≡ out.old.items ++ text_of (say_line say.now ∷ [])) }
{
    out.extend_from_slice(b"say")?;
    push_field(alloc, say.phase as u64, out)?;
    push_field(alloc, say.tick as u64, out)?;
    push_field(alloc, say.log as u64, out)?;
    out.push(b' ')?;
    push_line(say.text.as_slice(), out)
}
