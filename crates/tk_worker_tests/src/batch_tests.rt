//! Sums over eight blocks, by different numbers of workers.
ghost use Rattle.std.specs.Prelude.{◌≡◌, ◌<◌, length, IfOk};
ghost use Rattle.std.specs.List.{All};

use crate::blocks::{Eight, ascending};
use std::alloc::Global;
use std::test::Fail;
use tk_answer::answer;
use tk_batch::answer_all;
use tk_shape::{Bytes, Memory};

/// As many vectors, of one byte each: the first ones of a list that begins anew.
fn vectors(alloc: Global, list: &[u8], count: usize) -> Result<Vec<Bytes>, Memory>
    requires { 0 < length list.now }
    ensures { IfOk result (λ vs. All (λ v. length v ≡ 1) vs.items) }
{
    let mut vectors = Vec::new(alloc);
    for i in 0..count {
        vectors.push(Bytes::from_slice(alloc, &[list[i % list.len()]])?)?;
    }
    Ok(vectors)
}

/// Whether this is the answer to a vector by itself.
fn agrees(blocks: &Eight, vector: u8, sum: &[u8]) -> bool {
    let mut want = [0xff; 41];
    answer(blocks, &[vector], &mut want);
    sum == want.as_slice()
}

#[test]
fn three_vectors_by_any_number(rt: HostRuntime) -> Result<(), Fail> {
    let blocks = ascending();
    for workers in [1, 2, 7] {
        let vectors = vectors(rt.alloc(), &[0xa5], 3)?;
        let sums = answer_all(&rt, &blocks, vectors, workers)?;
        assert!(rt; sums.len() == 3);
        for sum in sums.iter() {
            assert!(rt;
                sum.as_slice() == [0x0c; 41].as_slice(),
                "{workers} workers"
            );
        }
    }
    Ok(())
}

#[test]
fn no_vectors(rt: HostRuntime) -> Result<(), Fail> {
    let sums = answer_all(&rt, &ascending(), Vec::new(rt.alloc()), 3)?;
    assert!(rt; sums.is_empty());
    Ok(())
}

#[test]
fn the_last_run_is_shorter(rt: HostRuntime) -> Result<(), Fail> {
    let blocks = ascending();
    let list = [0xa5, 0x00, 0x80, 0x13, 0x6e, 0xff, 0x01];
    for workers in [1, 2, 4, 5, 64] {
        let vectors = vectors(rt.alloc(), &list, 27)?;
        let sums = answer_all(&rt, &blocks, vectors, workers)?;
        assert!(rt; sums.len() == 27);
        for (i, sum) in sums.iter().enumerate() {
            assert!(rt;
                agrees(&blocks, list[i % 7], sum.as_slice()),
                "{workers} workers"
            );
        }
    }
    Ok(())
}
