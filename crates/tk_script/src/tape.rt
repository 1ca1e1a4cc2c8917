ghost use Rattle.tk_script.specs.Answer.{Agrees};
ghost use Rattle.tk_script.specs.Grammar.{lines_of};
ghost use Rattle.tk_script.specs.Reading.{read_kept, read_tape};
ghost use Rattle.tk_script.specs.Stands.{stands};

use crate::lines::is_end;
use crate::piece::piece_of;
use crate::place::Place;
use crate::{RawTape, ScriptError};
use std::alloc::Global;
use tk_shape::Bytes;

/// The tape section that begins here, and the place after it. No more than `want` bytes are kept;
/// all are counted, as far as 64 bits go.
pub(crate) fn tape_of(
    alloc: Global,
    want: usize,
    start: Place<'_>,
) -> Result<(RawTape, Place<'_>), ScriptError>
    ensures { Agrees (λ x. (x.0, stands x.1)) result (read_tape want (stands start.entry)) }
{
    let here = start.behind(b"tape")?;
    pieces_of(alloc, want, here)
}

/// The tape of the pieces up to the line `end`, and the place after it.
fn pieces_of(
    alloc: Global,
    want: usize,
    start: Place<'_>,
) -> Result<(RawTape, Place<'_>), ScriptError>
    ensures { Agrees (λ x. (x.0, stands x.1)) result
        (read_kept want start.entry.line (lines_of start.entry.rest.now)) }
{
    let mut kept = Vec::new(alloc);
    let mut got = 0u64;
    let mut here = start;
    'pieces: loop {
        let (line, behind) = here.next()?;
        if is_end(line) {
            let bytes = Bytes::from_vec(kept);
            return Ok((RawTape { bytes, got }, behind));
        }
        let piece = match piece_of(alloc, line)? {
            Ok(piece) => piece,
            Err(cause) => return Err(here.refused(cause)),
        };
        got = got.saturating_add(piece.len());
        piece.append_to(&mut kept, want)?;
        here = behind;
    }
}
