//! What a window of sound writes has.
ghost use Rattle.std.specs.Prelude.{◌≡◌, ◌++◌, ◌*◌, ◌≤◌, length, IfOk, OnOk};
ghost use Rattle.tk_frames.specs.Fields.{numbers};
ghost use Rattle.tk_checkpoint.specs.Saved.{entry_len};
ghost use Rattle.tk_checkpoint.specs.Reading.{positions_from, hits_from};

use crate::head::entry_len;
use std::alloc::{AllocError, Global};
use tk_frames::{u32_at, u64_at};
use tk_shape::{Memory, Shape};

/// The positions of so many writes.
pub(crate) fn positions_of(
    alloc: Global,
    shape: &Shape,
    count: u32,
    bytes: &[u8],
) -> Result<Vec<u64>, Memory>
    requires { count * entry_len shape.now ≤ length bytes.now }
    ensures { IfOk result (λ ps. ps.items ≡ positions_from shape.now.hits count bytes.now) }
{
    let len = entry_len(shape);
    let mut positions = Vec::with_capacity(alloc, count as usize)?;
    let mut rest = bytes;
    for _ in 0..count {
        positions.push(u64_at(rest, 0))?;
        rest = rest.split_at(len).1;
    }
    Ok(positions)
}

/// The hits of so many writes, those of one behind those of another.
pub(crate) fn hits_of(
    alloc: Global,
    shape: &Shape,
    count: u32,
    bytes: &[u8],
) -> Result<Vec<u32>, Memory>
    requires { count * entry_len shape.now ≤ length bytes.now }
    ensures { IfOk result (λ hits. hits.items ≡ hits_from shape.now.hits count bytes.now) }
{
    let len = entry_len(shape);
    let mut hits = Vec::with_capacity(alloc, count as usize * shape.hits as usize)?;
    let mut rest = bytes;
    for _ in 0..count {
        append_numbers(&mut hits, shape.hits, rest.split_at(8).1)?;
        rest = rest.split_at(len).1;
    }
    Ok(hits)
}

/// Appends so many numbers.
fn append_numbers(out: &mut Vec<u32>, count: u32, bytes: &[u8]) -> Result<(), AllocError>
    requires { 4 * count ≤ length bytes.now }
    ensures { OnOk result (out.new.items ≡ out.old.items ++ numbers count bytes.now) }
{
    let mut rest = bytes;
    for _ in 0..count {
        out.push(u32_at(rest, 0))?;
        rest = rest.split_at(4).1;
    }
    Ok(())
}
