//! Changes of buckets, slot after slot.
ghost use Rattle.std.specs.Prelude.{◌≡◌, ◌<◌, ◌≤◌, length};
ghost use Rattle.tk_bucket.specs.Table.{slot_at, with_slot};
ghost use Rattle.tk_table.specs.Stands.{slot_with};
ghost use Rattle.tk_table.specs.Steps.{AreSteps, IsFree, first_of, moved_by, cleared, cleared_in};

use crate::indexed::Indexed;
use tk_bucket::Step2;
use tk_place::{Scratch, Step};

fn place_of(step: Step) -> Step2
    ensures bucket { result.bucket ≡ step.bucket }
    ensures slot { result.slot ≡ step.slot }
{
    Step2 {
        bucket: step.bucket,
        slot: step.slot,
    }
}

/// Moves each entry of a chain of steps into the slot before it, and writes a record into the last.
pub(crate) fn store(
    buckets: &mut Indexed,
    scratch: &Scratch,
    count: u32,
    position: u64,
    pair: (u32, u32),
    block: &[u8],
)
    requires count { count ≡ length scratch.now.steps }
    requires some { 0 < count }
    requires steps { AreSteps buckets.old.contents.buckets buckets.old.contents.depth scratch.now.steps }
    requires free { IsFree buckets.old.contents.table (first_of scratch.now.steps) }
    requires position { 1 ≤ position }
    requires block { length block.now ≡ buckets.old.contents.block }
    ensures { let s = slot_with position pair block.now in
        let T = moved_by buckets.old.contents.table scratch.now.steps s in
        buckets.new.contents ≡ record buckets.old.contents { table = T } }
{
    let mut free = place_of(scratch.step(0));
    for i in 1..count {
        buckets.sized();
        let from = place_of(scratch.step(i));
        buckets.move_slot(from, free);
        free = from;
    }
    buckets.write_slot(free.bucket, free.slot, position, pair, block);
}

/// Empties a slot if its entry has this position.
fn clear_if(buckets: &mut Indexed, place: Step2, position: u64)
    requires bucket { place.bucket < buckets.old.contents.buckets }
    requires slot { place.slot < buckets.old.contents.depth }
    ensures { let T = buckets.old.contents.table in
        let s = cleared buckets.old.contents.block position (slot_at T (place.bucket, place.slot)) in
        buckets.new.contents ≡ record buckets.old.contents { table = with_slot T (place.bucket, place.slot) s } }
{
    buckets.sized();
    if buckets.slot(place.bucket, place.slot).position == position {
        buckets.clear_slot(place.bucket, place.slot);
    }
}

/// Empties each slot of a bucket whose entry has this position.
pub(crate) fn clear_in(buckets: &mut Indexed, depth: u32, bucket: u32, position: u64)
    requires depth { depth ≡ buckets.old.contents.depth }
    requires bucket { bucket < buckets.old.contents.buckets }
    ensures { let T = cleared_in buckets.old.contents.block position buckets.old.contents.table bucket in
        buckets.new.contents ≡ record buckets.old.contents { table = T } }
{
    buckets.sized();
    for slot in 0..depth {
        clear_if(buckets, Step2 { bucket, slot }, position);
    }
}
