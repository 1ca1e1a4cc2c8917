ghost use Rattle.std.specs.Prelude.{◌≡◌, ◌++◌, ◌∷◌, [], OnOk, OnErr};
ghost use Rattle.tk_script.specs.Grammar.{shape_line, kind_line};
ghost use Rattle.tk_script.specs.Printing.{text_of, printed, HasKeys};
ghost use Rattle.tk_script.specs.PrintLaws.{ReadsPrinted};

use crate::key_text::push_keys;
use crate::line_text::{push_fields, push_line, push_numbers_line};
use crate::role_text::push_roles;
use crate::say_text::push_says;
use crate::{Keys, Script};
use std::alloc::Global;
use tk_shape::{Memory, Shape};

/// Appends a script in its one printed form, or nothing if memory runs out. `parse` answers with
/// the same script: for a script of keys see `parse_printed`, and for one of drawn words, which
/// wants a tape after it, `parse_printed_with`.
pub fn print(script: &Script, out: &mut Vec<u8>) -> Result<(), Memory>
    ensures ok { OnOk result (out.new.items ≡ out.old.items ++ printed script.now) }
    ensures err { OnErr result (out.new.items ≡ out.old.items) }
    ensures has { OnOk result (HasKeys script.now.keys) }
    ensures reads { OnOk result (ReadsPrinted script.now) }
{
    let alloc = *out.allocator();
    let mut text = Vec::new(alloc);
    push_script(alloc, script, &mut text)?;
    out.extend_from_slice(text.as_slice())?;
    Ok(())
}

/// Appends the lines of a script.
fn push_script(alloc: Global, script: &Script, out: &mut Vec<u8>) -> Result<(), Memory>
    ensures ok { OnOk result (out.new.items ≡ out.old.items ++ printed script.now) }
    ensures has { OnOk result (HasKeys script.now.keys) }
{
    push_numbers_line(alloc, b"talek", &[script.shape.format as u64], out)?;
    push_shape(alloc, &script.shape, out)?;
    push_kind(&script.keys, out)?;
    push_roles(alloc, script.roles.as_slice(), out)?;
    push_keys(alloc, &script.keys, out)?;
    push_says(alloc, script.says.as_slice(), out)?;
    push_line(b"end", out)
}

/// Appends the line of a shape.
fn push_shape(alloc: Global, shape: &Shape, out: &mut Vec<u8>) -> Result<(), Memory>
    ensures ok { OnOk result (out.new.items
        ≡ out.old.items ++ text_of (shape_line shape.now ∷ [])) }
{
    out.extend_from_slice(b"shape")?;
    push_fields(alloc, shape.numbers().as_slice(), out)?;
    out.push(b'\n')?;
    Ok(())
}

/// Appends the line that says whether a script is keyed.
fn push_kind(keys: &Option<Keys>, out: &mut Vec<u8>) -> Result<(), Memory>
    ensures ok { OnOk result (out.new.items ≡ out.old.items ++ text_of (kind_line keys.now ∷ [])) }
{
    match keys {
        Some(_) => push_line(b"keyed", out),
        None => push_line(b"drawn", out),
    }
}
