ghost use Rattle.std.specs.Prelude.{◌≡◌, ◌+◌, ◌<◌, ◌≤◌, ◌^◌, IfOk};
ghost use Rattle.tk_packets.specs.Frames.{marks_len};
ghost use Rattle.tk_packets.specs.Marks.{mark_at, bits_from, mark_bytes};

use std::alloc::Global;
use tk_bloom::Filter;
use tk_shape::{Bytes, Memory, Shape};

/// The marks of a filter as bytes.
pub fn marks_of(alloc: Global, shape: &Shape, filter: &Filter) -> Result<Bytes, Memory>
    ensures { IfOk result (λ b. b ≡ mark_bytes (marks_len shape.now) filter.now) }
{
    let mut bytes = Vec::new(alloc);
    'bytes: for i in 0..shape.filter_bits / 8 {
        bytes.push(mark_byte(filter, 8 * i))?;
    }
    Ok(Bytes::from_vec(bytes))
}

/// 1 for a position that is marked, else 0.
fn mark(filter: &Filter, position: u32) -> u8
    ensures value { result ≡ mark_at filter.now position }
    ensures low { result ≤ 1 }
{
    if filter.shows(&[position]) { 1 } else { 0 }
}

/// The marks of eight positions.
fn mark_byte(filter: &Filter, first: u32) -> u8
    requires { first + 8 < 2 ^ 32 }
    ensures { result ≡ bits_from 8 filter.now first }
{
    let mut byte = 0u8;
    'marks: for done in 0..8 {
        byte = 2 * byte + mark(filter, first + (7 - done));
    }
    byte
}
