//! Sums over blocks that are divided in different ways.
ghost use Rattle.std.specs.Prelude.{◌≡◌, length, IfOk};
ghost use Rattle.std.specs.List.{All};

use crate::blocks::{Many, ascending, varied, with_first};
use std::alloc::Global;
use std::test::Fail;
use std::thread::Threads;
use tk_answer::answer;
use tk_shape::{Bytes, Memory};
use tk_shards::{Division, DivisionError, ShardSet, ranges_make_the_sum};

/// So many vectors of three bytes.
fn vectors(alloc: Global, count: u8) -> Result<Vec<Bytes>, Memory>
    ensures { IfOk result (λ vs. All (λ v. length v ≡ 3) vs.items) }
{
    let mut vectors = Vec::new(alloc);
    for i in 0..count {
        let bits = [
            i.wrapping_mul(37),
            i.wrapping_mul(91) ^ 0x5a,
            0xff ^ i.wrapping_mul(13),
        ];
        vectors.push(Bytes::from_slice(alloc, &bits)?)?;
    }
    Ok(vectors)
}

/// Whether these are the sums over the blocks for each vector.
fn are_sums(blocks: &Many, vectors: &[Bytes], sums: &[Bytes]) -> bool
    requires { All (λ v. length v ≡ 3) vectors.now }
{
    for (vector, sum) in vectors.iter().zip(sums.iter()) {
        let mut want = [0xff; 5];
        answer(blocks, vector.as_slice(), &mut want);
        if sum.as_slice() != want.as_slice() {
            return false;
        }
    }
    sums.len() == vectors.len()
}

/// Whether a set gives the sums over these blocks for each vector, by different numbers of workers.
fn agrees<R: Threads + Sync>(
    rt: &R,
    blocks: &Many,
    set: &ShardSet,
    vectors: &[Bytes],
) -> Result<bool, Memory>
    requires bits { All (λ v. length v ≡ 3) vectors.now }
    requires blocks { length set.now.blocks ≡ 24 }
{
    for workers in [1, 2, 3, 7, 64] {
        let sums = set.answer_by(rt, vectors, workers)?;
        if !are_sums(blocks, vectors, sums.as_slice()) {
            return Ok(false);
        }
    }
    let sums = set.answer_all(rt, vectors)?;
    Ok(are_sums(blocks, vectors, sums.as_slice()))
}

/// The sum of the blocks of one vector, of which all bytes are alike.
fn sum_of<R: Threads + Sync>(rt: &R, set: &ShardSet, vector: u8) -> Result<[u8; 41], Memory>
    requires width { set.now.width ≡ 41 }
    requires blocks { length set.now.blocks ≡ 8 }
{
    let mut sum = [0xff; 41];
    set.answer(rt, &[vector], &mut sum)?;
    Ok(sum)
}

#[test]
fn three_ranges_recut_and_updated(rt: HostRuntime) -> Result<(), Fail> {
    let alloc = rt.alloc();
    let blocks = ascending();
    let mut set = ShardSet::open(alloc, &blocks, Division::of(alloc, 8, &[3, 5])?)?;
    assert!(rt; sum_of(&rt, &set, 0x05)? == [0x02; 41]);
    assert!(rt; sum_of(&rt, &set, 0x00)? == [0x00; 41]);
    assert!(rt; sum_of(&rt, &set, 0xa0)? == [0x0e; 41]);
    assert!(rt; sum_of(&rt, &set, 0xa5)? == [0x0c; 41]);
    set.recut(Division::of(alloc, 8, &[1])?)?;
    assert!(rt; sum_of(&rt, &set, 0xa5)? == [0x0c; 41]);
    let next = with_first(&blocks, 0x11);
    let changed = set.changes(&next)?;
    assert!(rt; changed.len() == 1 && changed[0] == 0);
    set.update(&next, changed.as_slice());
    assert!(rt; set.changes(&next)?.is_empty());
    assert!(rt; sum_of(&rt, &set, 0xa5)? == [0x1c; 41]);
    Ok(())
}

#[test]
fn a_block_a_range_and_more_ranges_than_blocks(rt: HostRuntime) -> Result<(), Fail> {
    let alloc = rt.alloc();
    let mut set = ShardSet::open(alloc, &ascending(), Division::even(alloc, 8, 8)?)?;
    assert!(rt; sum_of(&rt, &set, 0xa5)? == [0x0c; 41]);
    set.recut(Division::even(alloc, 8, 64)?)?;
    assert!(rt; sum_of(&rt, &set, 0xa5)? == [0x0c; 41]);
    set.recut(Division::of(alloc, 8, &[0, 3, 3, 3, 8])?)?;
    assert!(rt; sum_of(&rt, &set, 0xa5)? == [0x0c; 41]);
    Ok(())
}

#[test]
fn cuts_out_of_order_or_beyond(rt: HostRuntime) -> Result<(), Fail> {
    let alloc = rt.alloc();
    let back = Division::of(alloc, 8, &[5, 3]);
    assert!(rt; matches!(back, Err(DivisionError::Cut { at: 1 })));
    let beyond = Division::of(alloc, 8, &[9]);
    assert!(rt; matches!(beyond, Err(DivisionError::Cut { at: 0 })));
    let empty = Division::of(alloc, 8, &[3, 3])?;
    assert!(rt; empty.buckets() == 8);
    Ok(())
}

#[test]
fn laws_can_be_called(_rt: HostRuntime) {
    ranges_make_the_sum();
}

#[test]
fn any_even_division(rt: HostRuntime) -> Result<(), Fail> {
    let alloc = rt.alloc();
    let blocks = varied();
    let many = vectors(alloc, 30)?;
    let few = vectors(alloc, 3)?;
    for shards in [1, 2, 3, 5, 24, 64] {
        let set = ShardSet::open(alloc, &blocks, Division::even(alloc, 24, shards)?)?;
        assert!(rt; agrees(&rt, &blocks, &set, &many)?, "{shards} ranges");
        assert!(rt; agrees(&rt, &blocks, &set, &few)?, "{shards} ranges");
    }
    Ok(())
}

#[test]
fn empty_ranges_and_ranges_of_one(rt: HostRuntime) -> Result<(), Fail> {
    let alloc = rt.alloc();
    let blocks = varied();
    let vectors = vectors(alloc, 30)?;
    let division = Division::of(alloc, 24, &[0, 0, 3, 3, 4, 5, 13, 24, 24])?;
    let set = ShardSet::open(alloc, &blocks, division)?;
    assert!(rt; agrees(&rt, &blocks, &set, &vectors)?);
    let mut again = ShardSet::open(alloc, &set, Division::of(alloc, 24, &[7, 17])?)?;
    assert!(rt; agrees(&rt, &blocks, &again, &vectors)?);
    again.update(&blocks, &[]);
    assert!(rt; agrees(&rt, &blocks, &again, &vectors)?);
    Ok(())
}

#[test]
fn no_vectors(rt: HostRuntime) -> Result<(), Fail> {
    let alloc = rt.alloc();
    let set = ShardSet::open(alloc, &ascending(), Division::even(alloc, 8, 2)?)?;
    assert!(rt; set.answer_all(&rt, &[])?.is_empty());
    Ok(())
}
