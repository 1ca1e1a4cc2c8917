//! What server 1 sees of two reads, the second under changed pads.
ghost use Rattle.std.specs.Prelude.{◌≡◌, ◌+◌};

use crate::reads::{bundled, pads_len};
use crate::serving::{block_of, mix, served};
use crate::sets::{blank_of, set_of};
use std::alloc::Global;
use std::marker::Brand;
use std::process::Abort;
use std::sync::Wait;
use std::test::Fail;
use tk_cluster::EpochSet;
use tk_order::{Blank, Naming};
use tk_relay::{Pads, encode_masked_reply, split};

/// The vectors of a read of buckets 2 and 5, and those of a read of buckets 5 and 2, drawn alike.
const FIRST: [[u8; 2]; 2] = [[0x21, 0x22], [0x25, 0x02]];

const SECOND: [[u8; 2]; 2] = [[0x21, 0x22], [0x01, 0x26]];

/// What server 1 sees of a read of two servers under pads: the bundle, and after it the masked reply of server 2.
fn sight(alloc: Global, set: &EpochSet, vectors: &[[u8; 2]], pads: &[u8]) -> Option<Vec<u8>> {
    let shape = set.shape();
    let pads = Pads::from_bytes(shape, Vec::from_slice(alloc, pads).ok()?).ok()?;
    let mut seen = bundled(alloc, shape, 1, vectors, &pads)?;
    let parts = split(alloc, shape, seen.as_slice()).ok()?;
    let reply = served(alloc, set, 2, parts.get(1)?, &pads)?.ok()?;
    encode_masked_reply(&reply, &mut seen).ok()?;
    Some(seen)
}

/// So many bytes, of which no two that lie close are equal.
fn counted(alloc: Global, len: usize) -> Option<Vec<u8>> {
    let mut bytes = Vec::new(alloc);
    for i in 0..len {
        bytes.push((i % 251) as u8).ok()?;
    }
    Some(bytes)
}

/// The unit vectors of two buckets, and after them their blocks.
fn units_and_blocks(
    alloc: Global,
    set: &EpochSet,
    units: [u8; 2],
    buckets: [u32; 2],
) -> Option<Vec<u8>> {
    let mut bytes = Vec::from_slice(alloc, &units).ok()?;
    for bucket in buckets {
        bytes.extend_from_slice(block_of(set, 2, bucket)?).ok()?;
    }
    Some(bytes)
}

/// The pads with which a read of buckets 5 and 2 looks like one of buckets 2 and 5 under these.
fn changed(alloc: Global, set: &EpochSet, pads: &[u8]) -> Option<Vec<u8>> {
    let old = units_and_blocks(alloc, set, [4, 32], [2, 5])?;
    let new = units_and_blocks(alloc, set, [32, 4], [5, 2])?;
    let mut changed = Vec::from_slice(alloc, pads).ok()?;
    mix(changed.as_mut_slice(), old.as_slice());
    mix(changed.as_mut_slice(), new.as_slice());
    Some(changed)
}

fn sights_alike<R: Abort + AllocGlobal>(rt: &R, set: &EpochSet) -> Result<(), Fail> {
    let alloc = rt.alloc();
    let pads = counted(alloc, pads_len(set.shape())).ok_or("pads")?;
    let moved = changed(alloc, set, pads.as_slice()).ok_or("moved")?;
    let first = sight(alloc, set, &FIRST, pads.as_slice()).ok_or("first")?;
    let second = sight(alloc, set, &SECOND, moved.as_slice()).ok_or("second")?;
    let other = sight(alloc, set, &SECOND, pads.as_slice()).ok_or("other")?;
    assert!(rt; first.len() == 18 + 334 && first.as_slice() == second.as_slice());
    // with the same pads both the bundle and the reply would differ
    let (bundles, replies) = (&first[..18], &first[18..]);
    assert!(rt; !other.as_slice().starts_with(bundles) && !other.as_slice().ends_with(replies));
    Ok(())
}

fn of_a_new_set<B: Naming, R: Wait + AllocGlobal + Abort>(rt: &R, blank: Blank) -> Result<(), Fail>
    requires table { blank.table ≡ B.table }
    requires shape { blank.shape ≡ B.shape }
    requires seats { blank.seats ≡ B.shape.clients + 1 }
{
    let set = set_of::<B, R>(rt, blank).ok_or("set")?;
    sights_alike(rt, &set)
}

#[test]
fn server_1_sees_the_same_of_two_reads(rt: HostRuntime) -> Result<(), Fail> {
    let Some(blank) = blank_of(rt.alloc(), 1, 2, 8) else {
        assert!(rt; false);
        return Ok(());
    };
    of_a_new_set::<Brand, _>(&rt, blank)
}
