//! The values whose fields stand in bytes.
ghost use Rattle.std.specs.Prelude.{◌≡◌, ◌+◌, ◌*◌, ◌≤◌, length, take, drop, slice_index, IfOk, true, false};
ghost use Rattle.tk_shape.specs.Lengths.{vector_len, read_len, seed_read_len, reply_len};
ghost use Rattle.tk_handle.specs.Handle.{expanded};
ghost use Rattle.tk_frames.specs.declared.seeds.Seeds.TheVariants.{Plain, Seeded, Shown};
ghost use Rattle.tk_frames.specs.Fields.{numbers, write_in, read_with, read_in, reply_in};
ghost use Rattle.tk_frames.specs.Fields.{placed_mark_in, placed_record_in};
ghost use Rattle.tk_frames.specs.Faults.{read_len_of};

use crate::numbers::{u32_at, u64_at};
use crate::spare::{Spare, copied, sized};
use crate::{Entry, Placed, ReadFrame, ReplyFrame, Seeds, WriteFrame, kind};
use std::alloc::Global;
use tk_handle::fill;
use tk_shape::{Bytes, Memory, Shape, Words};

fn hits_of(alloc: Global, count: u32, bytes: &[u8]) -> Result<Words, Memory>
    requires { 4 * count ≤ length bytes.now }
    ensures { IfOk result (λ hits. hits ≡ numbers count bytes.now) }
{
    let mut hits = Vec::new(alloc);
    let mut rest = bytes;
    for _ in 0..count {
        hits.push(u32_at(rest, 0))?;
        rest = rest.split_at(4).1;
    }
    Ok(Words::from_vec(hits))
}

pub fn write_of(alloc: Global, shape: &Shape, fields: &[u8]) -> Result<WriteFrame, Memory>
    requires { 16 + 4 * shape.now.hits ≤ length fields.now }
    ensures { IfOk result (λ w. w ≡ write_in shape.now fields.now) }
{
    let (_, tail) = fields.split_at(16);
    let (hits, block) = tail.split_at(4 * shape.hits as usize);
    Ok(WriteFrame {
        client: u32_at(fields, 0),
        turn: u32_at(fields, 4),
        first: u32_at(fields, 8),
        second: u32_at(fields, 12),
        hits: hits_of(alloc, shape.hits, tail)?,
        block: Bytes::from_slice(alloc, block)?,
    })
}

pub fn read_of(
    alloc: Global,
    spare: &mut Spare,
    shape: &Shape,
    bytes: &[u8],
) -> Result<ReadFrame, Memory>
    requires { length bytes.now ≡ read_len_of shape.now (slice_index bytes.now 0) }
    ensures { IfOk result (λ r. r ≡ read_in shape.now bytes.now) }
{
    match bytes[0] {
        kind::SEEDED => seeded_read_of(alloc, spare, shape, bytes),
        kind::SHOWN => shown_read_of(alloc, spare, shape, bytes),
        _ => plain_read_of(alloc, spare, shape, bytes),
    }
}

fn plain_read_of(
    alloc: Global,
    spare: &mut Spare,
    shape: &Shape,
    bytes: &[u8],
) -> Result<ReadFrame, Memory>
    requires { length bytes.now ≡ read_len shape.now }
    ensures { IfOk result (λ r. r ≡ read_with shape.now Plain bytes.now) }
{
    let (_, vectors) = bytes.split_at(14);
    let (first, second) = vectors.split_at(shape.vector_len() as usize);
    Ok(ReadFrame {
        client: u32_at(bytes, 2),
        turn: u32_at(bytes, 6),
        epoch: u32_at(bytes, 10),
        first: copied(alloc, &mut spare.vectors, first)?,
        second: copied(alloc, &mut spare.vectors, second)?,
        seeds: Seeds::Plain,
    })
}

fn seeded_read_of(
    alloc: Global,
    spare: &mut Spare,
    shape: &Shape,
    bytes: &[u8],
) -> Result<ReadFrame, Memory>
    requires { length bytes.now ≡ seed_read_len shape.now false }
    ensures { IfOk result (λ r. r ≡ read_with shape.now (Seeded (drop 14 bytes.now)) bytes.now) }
{
    let (_, seeds) = bytes.split_at(14);
    let (first, second) = seeds.split_at(32);
    Ok(ReadFrame {
        client: u32_at(bytes, 2),
        turn: u32_at(bytes, 6),
        epoch: u32_at(bytes, 10),
        first: expansion(alloc, &mut spare.vectors, shape, first)?,
        second: expansion(alloc, &mut spare.vectors, shape, second)?,
        seeds: Seeds::Seeded(copied(alloc, &mut spare.seeds, seeds)?),
    })
}

fn shown_read_of(
    alloc: Global,
    spare: &mut Spare,
    shape: &Shape,
    bytes: &[u8],
) -> Result<ReadFrame, Memory>
    requires { length bytes.now ≡ seed_read_len shape.now true }
    ensures { IfOk result (λ r. r ≡ read_with shape.now (Shown (take 64 (drop 14 bytes.now))) bytes.now) }
{
    let (_, told) = bytes.split_at(14);
    let (seeds, vectors) = told.split_at(64);
    let (first, second) = vectors.split_at(shape.vector_len() as usize);
    Ok(ReadFrame {
        client: u32_at(bytes, 2),
        turn: u32_at(bytes, 6),
        epoch: u32_at(bytes, 10),
        first: copied(alloc, &mut spare.vectors, first)?,
        second: copied(alloc, &mut spare.vectors, second)?,
        seeds: Seeds::Shown(copied(alloc, &mut spare.seeds, seeds)?),
    })
}

/// The vector that a seed expands to.
fn expansion(
    alloc: Global,
    spare: &mut Vec<Vec<u8>>,
    shape: &Shape,
    seed: &[u8],
) -> Result<Bytes, Memory>
    requires { length seed.now ≡ 32 }
    ensures { IfOk result (λ v. v ≡ expanded (vector_len shape.now) seed.now) }
{
    let mut key = [0; 32];
    key.copy_from_slice(seed);
    let mut vector = sized(alloc, spare, shape.vector_len() as usize)?;
    fill(&key, 0, 0, vector.as_mut_slice());
    Ok(Bytes::from_vec(vector))
}

pub fn reply_of(alloc: Global, shape: &Shape, bytes: &[u8]) -> Result<ReplyFrame, Memory>
    requires { length bytes.now ≡ reply_len shape.now }
    ensures { IfOk result (λ r. r ≡ reply_in shape.now bytes.now) }
{
    let (_, sums) = bytes.split_at(14);
    let (first, second) = sums.split_at(shape.width() as usize);
    Ok(ReplyFrame {
        client: u32_at(bytes, 2),
        turn: u32_at(bytes, 6),
        epoch: u32_at(bytes, 10),
        first: Bytes::from_slice(alloc, first)?,
        second: Bytes::from_slice(alloc, second)?,
    })
}

/// The two sums of a reply, where they lie in its bytes.
pub fn sums_of<'a>(shape: &Shape, bytes: &'a [u8]) -> (&'a [u8], &'a [u8])
    requires { length bytes.now ≡ reply_len shape.now }
    ensures first { result.0.now ≡ (reply_in shape.now bytes.now).first }
    ensures second { result.1.now ≡ (reply_in shape.now bytes.now).second }
{
    bytes.split_at(14).1.split_at(shape.width() as usize)
}

pub fn record_of(alloc: Global, shape: &Shape, bytes: &[u8]) -> Result<Placed, Memory>
    requires { 26 + 4 * shape.now.hits ≤ length bytes.now }
    ensures { IfOk result (λ p. p ≡ placed_record_in shape.now bytes.now) }
{
    let write = write_of(alloc, shape, &bytes[10..])?;
    Ok(Placed {
        position: u64_at(bytes, 2),
        entry: Entry::Write(write),
    })
}

pub fn mark_of(bytes: &[u8]) -> Placed
    requires { 14 ≤ length bytes.now }
    ensures { result ≡ placed_mark_in bytes.now }
{
    Placed {
        position: u64_at(bytes, 2),
        entry: Entry::Mark(u32_at(bytes, 10)),
    }
}
