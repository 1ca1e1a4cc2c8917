ghost use Rattle.std.specs.Prelude.{◌≡◌, ◌++◌, OnOk, OnErr};
ghost use Rattle.tk_script.specs.Printing.{text_of, lines_of_pieces, printed_tape};
ghost use Rattle.tk_script.specs.PrintLaws.{ReadsPrintedTape};

use crate::line_text::{push_bytes_line, push_line};
use std::alloc::Global;
use tk_shape::Memory;
use tk_words::Tape;

/// The bytes of a line of a tape.
const PIECE: usize = 32;

/// Appends a tape in its one printed form, or nothing if memory runs out. After a printed
/// script of drawn words `parse` reads the same bytes, as `parse_printed_with` says.
pub fn print_tape(tape: &Tape, out: &mut Vec<u8>) -> Result<(), Memory>
    ensures ok { OnOk result (out.new.items ≡ out.old.items ++ printed_tape tape.now) }
    ensures err { OnErr result (out.new.items ≡ out.old.items) }
    ensures reads { OnOk result (ReadsPrintedTape tape.now) }
{
    print_bytes(tape.as_bytes(), out)
}

/// The same of the bytes of a tape.
pub(crate) fn print_bytes(tape: &[u8], out: &mut Vec<u8>) -> Result<(), Memory>
    ensures ok { OnOk result (out.new.items ≡ out.old.items ++ printed_tape tape.now) }
    ensures err { OnErr result (out.new.items ≡ out.old.items) }
    ensures reads { OnOk result (ReadsPrintedTape tape.now) }
{
    let alloc = *out.allocator();
    let mut text = Vec::new(alloc);
    push_tape(alloc, tape, &mut text)?;
    out.extend_from_slice(text.as_slice())?;
    Ok(())
}

/// Appends the lines of a tape.
fn push_tape(alloc: Global, tape: &[u8], out: &mut Vec<u8>) -> Result<(), Memory>
    ensures ok { OnOk result (out.new.items ≡ out.old.items ++ printed_tape tape.now) }
{
    push_line(b"tape", out)?;
    push_pieces(alloc, tape, out)?;
    push_line(b"end", out)
}

/// Appends the lines of a tape's pieces, of which the last may be shorter.
fn push_pieces(alloc: Global, tape: &[u8], out: &mut Vec<u8>) -> Result<(), Memory>
    ensures ok { OnOk result (out.new.items ≡ out.old.items ++ text_of (lines_of_pieces tape.now)) }
{
    let mut rest = tape;
    'pieces: while !rest.is_empty() {
        let size = rest.len().min(PIECE);
        push_bytes_line(alloc, b"x", &rest[..size], out)?;
        rest = &rest[size..];
    }
    Ok(())
}
