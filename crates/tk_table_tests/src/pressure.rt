//! The table under pressure, beside the plain definition: of the latest writes, those are stored
//! that have a placement.
ghost use Rattle.std.specs.Prelude.{◌<◌};

use crate::table_tests::{open, put};
use std::alloc::Global;
use std::test::Fail;
use tk_answer::Blocks;
use tk_table::{Put, Snapshot};

/// A write, its two buckets, and whether it is stored.
#[derive(Clone, Copy)]
struct Write {
    position: u64,
    pair: (u32, u32),
    stored: bool,
}

/// The set of buckets, each a bit, that has these two.
fn set_of(pair: (u32, u32)) -> u32 {
    1u32.checked_shl(pair.0).unwrap_or(0) | 1u32.checked_shl(pair.1).unwrap_or(0)
}

/// How many are stored that have both buckets in a set.
fn within(latest: &[Write], set: u32) -> u32 {
    let mut count = 0u32;
    for write in latest {
        if write.stored && set_of(write.pair) & !set == 0 {
            count = count.saturating_add(1);
        }
    }
    count
}

/// Whether all that are stored and a new write have a placement: no set of buckets has more of
/// them to itself than it has slots.
fn fits(latest: &[Write], pair: (u32, u32), depth: u32) -> bool {
    for set in 0..256u32 {
        if set_of(pair) & !set == 0
            && within(latest, set) >= set.count_ones().saturating_mul(depth)
        {
            return false;
        }
    }
    true
}

/// How many slots of a bucket have a position, and how many are free where it is 0.
fn holding(snapshot: &Snapshot, bucket: u32, position: u64) -> u32 {
    if bucket >= snapshot.count() {
        return 0;
    }
    let Some(slots) = snapshot.run(bucket).get(..snapshot.width() as usize) else {
        return 0;
    };
    let wanted = position.to_be_bytes();
    let mut count = 0u32;
    for slot in slots.chunks_exact(40) {
        if slot.starts_with(&wanted) {
            count = count.saturating_add(1);
        }
    }
    count
}

/// Whether one slot of a write's buckets has its position.
fn is_once(snapshot: &Snapshot, write: &Write) -> bool {
    let (first, second) = write.pair;
    let mut found = holding(snapshot, first, write.position);
    if second != first {
        found = found.saturating_add(holding(snapshot, second, write.position));
    }
    found == 1
}

/// Whether the entries are those writes that are stored, each once and in one of its buckets.
fn are_stored(snapshot: &Snapshot, latest: &[Write], depth: u32) -> bool {
    let mut slots = 0u32;
    for bucket in 0..8u32 {
        slots = slots.saturating_add(holding(snapshot, bucket, 0));
    }
    for write in latest {
        if write.stored {
            slots = slots.saturating_add(1);
            if !is_once(snapshot, write) {
                return false;
            }
        }
    }
    slots == depth.saturating_mul(8)
}

/// Two of so many buckets that look random: the high bits of a linear congruence.
pub(crate) fn next_pair(state: &mut u64, buckets: u32) -> (u32, u32)
    requires { 0 < buckets }
    ensures first { result.0 < buckets }
    ensures second { result.1 < buckets }
{
    *state = state
        .wrapping_mul(6364136223846793005)
        .wrapping_add(1442695040888963407);
    let high = *state >> 40;
    let count = u64::from(buckets);
    ((high % count) as u32, (high / count % count) as u32)
}

/// The last so many writes.
fn last(writes: &[Write], count: u32) -> &[Write] {
    let start = writes.len().saturating_sub(count as usize);
    writes.split_at(start).1
}

/// Puts so many writes, and compares what became of each, and all that is stored then, with the
/// plain definition.
fn press(alloc: Global, depth: u32, retained: u32, writes: u64) -> Result<(), Fail> {
    let mut table = open(alloc, depth, retained)?;
    let mut all: Vec<Write> = Vec::new(alloc);
    let mut state = u64::from(depth);
    for position in 1..=writes {
        let pair = next_pair(&mut state, 8);
        let stored = fits(last(&all, retained.saturating_sub(1)), pair, depth);
        if (put(&mut table, position, pair) == Put::Placed) != stored {
            return Err("put".into());
        }
        all.push(Write {
            position,
            pair,
            stored,
        })?;
        let snapshot = table.snapshot(alloc).ok().ok_or("memory")?;
        if !are_stored(&snapshot, last(&all, retained), depth) {
            return Err("stored".into());
        }
    }
    Ok(())
}

#[test]
fn the_latest_that_have_a_placement_are_stored(rt: HostRuntime) -> Result<(), Fail> {
    for (depth, retained, writes) in [
        (1, 8, 40000),
        (1, 5, 10000),
        (2, 16, 30000),
        (4, 32, 20000),
    ] {
        press(rt.alloc(), depth, retained, writes)?;
    }
    Ok(())
}
