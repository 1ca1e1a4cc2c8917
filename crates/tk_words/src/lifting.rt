//! A tape in format 2.
ghost use Rattle.std.specs.Prelude.{◌≡◌, ◌↔◌, ◌*◌, ◌<◌, ◌≤◌, ◌++◌, ℕ, length, flat_map, IfOk, OnOk, Err};
ghost use Rattle.tk_shape.specs.Lengths.{turn_count, read_cell_len, tape_len};
ghost use Rattle.tk_shape.specs.Lifting.{lifted_shape};
ghost use Rattle.tk_kernel.specs.Pieces.{pieces};
ghost use Rattle.tk_words.specs.Lifting.{lifted_tape, lifted_read_cell, with_zero_seed};

use crate::Tape;
use crate::drawn::{read_cells_len, write_cells_len};
use std::alloc::Global;
use tk_shape::{Memory, Shape};

/// The bytes that the tape of a script may have.
const MOST: u64 = 2097152;

/// Why a tape isn't lifted.
#[derive(Clone, Copy, Debug, PartialEq, Eq)]
pub enum LiftError {
    /// The lifted tape would have this many bytes, more than 2,097,152.
    Wide { want: u64 },
    /// Memory ran out.
    Memory,
}

/// The tape of a shape in format 2. One of format 1 gets a seed of zeros before each vector of its read cells; one of
/// format 2 stays as it is.
pub fn lift_tape(shape: &Shape, tape: &Tape) -> Result<Tape, LiftError>
    requires { length tape.now ≡ tape_len shape.now }
    ensures lifted { IfOk result (λ t. t ≡ lifted_tape shape.now tape.now) }
    ensures whole { IfOk result (λ t. length t ≡ tape_len (lifted_shape shape.now)) }
    ensures wide { (want : ℕ) → (result ≡ Err (LiftError.Wide want))
        ↔ ((want ≡ tape_len (lifted_shape shape.now)) × (2097152 < want)) }
    ensures fits { OnOk result (tape_len (lifted_shape shape.now) ≤ 2097152) }
{
    let want = shape.lifted().tape_len();
    if want > MOST {
        return Err(LiftError::Wide { want });
    }
    match lifted_bytes(shape, tape) {
        Ok(bytes) => Ok(Tape::of_bytes(bytes)),
        Err(_) => Err(LiftError::Memory),
    }
}

/// The bytes of a tape in format 2.
fn lifted_bytes(shape: &Shape, tape: &Tape) -> Result<Vec<u8>, Memory>
    requires { length tape.now ≡ tape_len shape.now }
    ensures { IfOk result (λ bytes. bytes.items ≡ lifted_tape shape.now tape.now) }
{
    let mut out = Vec::new(tape.alloc());
    if shape.format == 2 {
        out.extend_from_slice(tape.as_bytes())?;
        return Ok(out);
    }
    let (writes, rest) = tape.as_bytes().split_at(write_cells_len(shape));
    let (reads, keyed) = rest.split_at(read_cells_len(shape));
    out.extend_from_slice(writes)?;
    push_read_cells(shape, reads, &mut out)?;
    out.extend_from_slice(keyed)?;
    Ok(out)
}

/// Appends the read cells of a tape in format 2.
fn push_read_cells(shape: &Shape, cells: &[u8], out: &mut Vec<u8>) -> Result<(), Memory>
    requires { length cells.now ≡ turn_count shape.now * shape.now.clients * read_cell_len shape.now }
    ensures { OnOk result (out.new.items ≡ out.old.items ++ flat_map (lifted_read_cell shape.now)
        (pieces (read_cell_len shape.now) (turn_count shape.now * shape.now.clients) cells.now)) }
{
    let size = shape.read_cell_len() as usize;
    let count = shape.turns() as usize * shape.clients as usize;
    let mut rest = cells;
    'cells: for _ in 0..count {
        let (cell, after) = rest.split_at(size);
        push_read_cell(shape, cell, out)?;
        rest = after;
    }
    Ok(())
}

/// Appends a read cell in format 2.
fn push_read_cell(shape: &Shape, cell: &[u8], out: &mut Vec<u8>) -> Result<(), Memory>
    requires { length cell.now ≡ read_cell_len shape.now }
    ensures { OnOk result (out.new.items ≡ out.old.items ++ lifted_read_cell shape.now cell.now) }
{
    let count = 2 * (shape.servers as usize - 1);
    let (words, vectors) = cell.split_at(8);
    out.extend_from_slice(words)?;
    push_with_seeds(vectors, count, shape.piece_len() as usize, out)?;
    Ok(())
}

/// Appends so many vectors, each behind a seed of zeros.
fn push_with_seeds(
    vectors: &[u8],
    count: usize,
    size: usize,
    out: &mut Vec<u8>,
) -> Result<(), Memory>
    requires { length vectors.now ≡ count * size }
    ensures { OnOk result (out.new.items
        ≡ out.old.items ++ flat_map with_zero_seed (pieces size count vectors.now)) }
{
    let mut rest = vectors;
    'vectors: for _ in 0..count {
        let (vector, after) = rest.split_at(size);
        out.extend_from_slice(&[0; 32])?;
        out.extend_from_slice(vector)?;
        rest = after;
    }
    Ok(())
}
