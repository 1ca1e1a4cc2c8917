//! The index of buckets whose slots are filled already.
ghost use Rattle.std.specs.Prelude.{◌≡◌, ◌<◌, ◌==◌, cond, length, map, slice_set, IfOk};
ghost use Rattle.tk_place.specs.Place.{slots_of};
ghost use Rattle.tk_bucket.specs.Table.{bucket_at, slot_at};
ghost use Rattle.tk_table.specs.Table.{other_in, others_from};

use crate::Memory;
use crate::index::Index;
use std::alloc::Global;
use tk_bucket::{Buckets, Step2};

/// Of a pair of buckets the other one.
pub(crate) fn other_of(pair: (u32, u32), bucket: u32) -> u32
    ensures { result ≡ cond (pair.0 == bucket) pair.1 pair.0 }
{
    if pair.0 == bucket { pair.1 } else { pair.0 }
}

/// What a search would see of the entry in a slot, where it lay in this bucket.
pub(crate) fn seen_in(buckets: &Buckets, bucket: u32, at: Step2) -> Option<u32>
    requires bucket_in { at.bucket < buckets.now.contents.buckets }
    requires slot_in { at.slot < buckets.now.contents.depth }
    ensures { let s = slot_at buckets.now.contents.table (at.bucket, at.slot) in
        result ≡ other_in bucket s }
{
    let entry = buckets.slot(at.bucket, at.slot);
    if entry.position == 0 {
        return None;
    }
    Some(other_of((entry.first, entry.second), bucket))
}

/// What a search sees of all buckets, of which there are `count`.
pub(crate) fn index_of(
    alloc: Global,
    buckets: &Buckets,
    count: u32,
    depth: u32,
) -> Result<Index, Memory>
    requires count { count ≡ buckets.now.contents.buckets }
    requires depth { depth ≡ buckets.now.contents.depth }
    ensures { IfOk result (λ x. x ≡ others_from 0 buckets.now.contents.table) }
{
    buckets.sized();
    let mut index = Index::new(alloc, count, depth)?;
    for bucket in 0..count {
        fill_bucket(&mut index, buckets, bucket, depth);
    }
    Ok(index)
}

/// Sets for each slot of a bucket the other bucket of its entry, if it has one.
fn fill_bucket(index: &mut Index, buckets: &Buckets, bucket: u32, depth: u32)
    requires bucket { bucket < buckets.now.contents.buckets }
    requires depth { depth ≡ buckets.now.contents.depth }
    requires wide { bucket < length index.old }
    requires deep { length (slots_of index.old bucket) ≡ depth }
    ensures { let slots = bucket_at buckets.now.contents.table bucket in
        index.new ≡ slice_set index.old bucket (map (other_in bucket) slots) }
{
    buckets.sized();
    for slot in 0..depth {
        let at = Step2 { bucket, slot };
        index.set(at, seen_in(buckets, bucket, at));
    }
}
