//! The sums over all ranges, of which each worker takes some.
ghost use Rattle.std.specs.Prelude.{◌≡◌, ◌<◌, length, map, replicate, IfOk};
ghost use Rattle.std.specs.List.{All};
ghost use Rattle.tk_shards.specs.Parts.{IsAsked, HasParts, sum_in, xor_rows, AreAlike, IsTotal};

use crate::shard::Shard;
use std::alloc::Global;
use std::thread;
use std::thread::Threads;
use tk_kernel::xor_into;
use tk_shape::{Bytes, Memory};

/// The sums over some ranges, if there was memory for them.
pub(crate) type Part = Result<Vec<Bytes>, Memory>;

/// The sums over the ranges, of which each worker takes so many in a row, in a thread of its own where
/// one can be made.
pub(crate) fn parts_of<R: Threads + Sync>(
    rt: &R,
    alloc: Global,
    width: usize,
    shards: &[Shard],
    rows: &[Vec<u8>],
    size: usize,
) -> Result<Vec<Part>, Memory>
    requires asked { All (IsAsked width (map (λ row. row.items) rows.now)) shards.now }
    requires size { 0 < size }
    ensures { IfOk result (λ parts.
        HasParts width size shards.now (map (λ row. row.items) rows.now) parts.items) }
{
    let parts = thread::map_chunks(
        rt,
        alloc,
        shards,
        size,
        &|_, taken|
            requires { All (IsAsked width (map (λ row. row.items) rows.now)) taken.now }
        { sums_over(alloc, width, taken, rows) },
    )?;
    Ok(parts)
}

/// For each vector over all blocks the sum of those of these ranges that it chooses. Each range is
/// gone over once for all vectors.
fn sums_over(
    alloc: Global,
    width: usize,
    shards: &[Shard],
    rows: &[Vec<u8>],
) -> Result<Vec<Bytes>, Memory>
    requires { All (IsAsked width (map (λ row. row.items) rows.now)) shards.now }
    ensures { IfOk result (λ sums. sums.items
        ≡ map (sum_in width shards.now) (map (λ row. row.items) rows.now)) }
{
    let mut sums = zeros(alloc, rows.len(), width)?;
    for shard in shards {
        shard.add(sums.as_mut_slice(), rows);
    }
    bytes_of(alloc, sums)
}

/// So many sums of no blocks.
fn zeros(alloc: Global, count: usize, width: usize) -> Result<Vec<Vec<u8>>, Memory>
    ensures count { IfOk result (λ sums. length sums.items ≡ count) }
    ensures each { IfOk result (λ sums. All (λ sum. sum.items ≡ replicate width 0) sums.items) }
{
    let mut sums = Vec::with_capacity(alloc, count)?;
    for _ in 0..count {
        sums.push(vec![in alloc; 0u8; width]?)?;
    }
    Ok(sums)
}

/// The same bytes, none of which is copied.
fn bytes_of(alloc: Global, rows: Vec<Vec<u8>>) -> Result<Vec<Bytes>, Memory>
    ensures { IfOk result (λ out. out.items ≡ map (λ row. row.items) rows.items) }
{
    let mut out = Vec::new(alloc);
    for row in rows {
        out.push(Bytes::from_vec(row))?;
    }
    Ok(out)
}

/// A copy of the bytes of vectors.
pub(crate) fn rows_of(alloc: Global, vectors: &[Bytes]) -> Result<Vec<Vec<u8>>, Memory>
    ensures { IfOk result (λ rows. map (λ row. row.items) rows.items ≡ vectors.now) }
{
    let mut rows = Vec::with_capacity(alloc, vectors.len())?;
    for vector in vectors {
        rows.push(Vec::from_slice(alloc, vector.as_slice())?)?;
    }
    Ok(rows)
}

/// The sums of all parts, added, if there was memory for every part.
pub(crate) fn total_of(alloc: Global, mut parts: Vec<Part>) -> Result<Vec<Bytes>, Memory>
    requires { AreAlike parts.items }
    ensures { IfOk result (λ all. IsTotal parts.items all.items) }
{
    let mut all = parts.remove(0)?;
    for part in parts {
        let part = part?;
        all = plus(alloc, all, part.as_slice())?;
    }
    Ok(all)
}

/// The sums, and to each of them another added.
fn plus(alloc: Global, sums: Vec<Bytes>, others: &[Bytes]) -> Result<Vec<Bytes>, Memory>
    requires { map length others.now ≡ map length sums.items }
    ensures { IfOk result (λ all. all.items ≡ xor_rows sums.items others.now) }
{
    let mut all = Vec::with_capacity(alloc, sums.len())?;
    for sum in sums {
        let mut sum = sum.into_vec();
        xor_into(sum.as_mut_slice(), others[all.len()].as_slice());
        all.push(Bytes::from_vec(sum))?;
    }
    Ok(all)
}
