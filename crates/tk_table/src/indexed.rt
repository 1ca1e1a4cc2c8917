//! Buckets with an index of what a search sees of them.
ghost use Rattle.std.specs.Prelude.{◌≡◌, ◌≢◌, ◌*◌, ◌<◌, ◌≤◌, length, map, None, Some, IsTrue, IfOk};
ghost use Rattle.std.specs.Prelude.{All, IsSome};
ghost use Rattle.tk_place.specs.Place.{slots_of, lowest_empty};
ghost use Rattle.tk_place.specs.Table.{slot_at as other_at, IsBelow, leads_to_full};
ghost use Rattle.tk_bucket.specs.Sizes.{IsSizes, bucket_len};
ghost use Rattle.tk_bucket.specs.Table.{IsSized, empty_table, empty_slot, is_empty};
ghost use Rattle.tk_bucket.specs.Table.{slot_at, with_slot, with_moved};
ghost use Rattle.tk_bucket.specs.Packing.{table_in};
ghost use Rattle.tk_bucket.specs.Shown.{Shows};
ghost use Rattle.tk_bucket.specs.Bytes.{blocks_of};
ghost use Rattle.tk_table.specs.Table.{others_from};
ghost use Rattle.tk_table.specs.Stands.{slot_with};

use crate::Memory;
use crate::fill::{index_of, other_of, seen_in};
use crate::index::Index;
use std::alloc::Global;
use std::marker::Model;
use tk_bucket::{Buckets, Packed, SlotRef, Step2};

/// Buckets, and beside them what a search sees of them. Each change of a slot is made in both.
#[derive(Debug, Drop)]
pub(crate) struct Indexed {
    buckets: Buckets,
    index: Index,
}

impl Model for Indexed {
    ghost use Rattle.std.specs.Prelude.{◌≡◌};
    ghost use Rattle.tk_bucket.specs.Paging.{Stored};
    ghost use Rattle.tk_table.specs.Table.{others_from};

    ghost Value = { Stored };

    ghost view = { λ i. i.buckets };

    ghost invariant = { λ i. i.index ≡ others_from 0 i.buckets.contents.table };
}

impl Indexed {
    /// Empty slots, with blocks of `block` bytes.
    pub fn new(alloc: Global, buckets: u32, depth: u32, block: u32) -> Result<Indexed, Memory>
        requires { IsSizes buckets depth block }
        ensures contents { IfOk result (λ b. b.contents ≡ record {
          buckets = buckets;
          depth = depth;
          block = block;
          table = empty_table buckets depth block;
        }) }
    {
        Ok(Indexed {
            buckets: Buckets::new(alloc, buckets, depth, block)?,
            index: Index::new(alloc, buckets, depth)?,
        })
    }

    /// The slots of these bytes, bucket after bucket.
    pub fn restore(
        alloc: Global,
        buckets: u32,
        depth: u32,
        block: u32,
        bytes: &[u8],
    ) -> Result<Indexed, Memory>
        requires sizes { IsSizes buckets depth block }
        requires whole { length bytes.now ≡ buckets * bucket_len depth block }
        ensures contents { IfOk result (λ b. b.contents ≡ record {
          buckets = buckets;
          depth = depth;
          block = block;
          table = table_in buckets depth block bytes.now;
        }) }
    {
        let filled = Buckets::restore(alloc, buckets, depth, block, bytes)?;
        let index = index_of(alloc, &filled, buckets, depth)?;
        Ok(Indexed {
            buckets: filled,
            index,
        })
    }

    /// Has no effect, and says what sizes the buckets have, whatever was written.
    pub fn sized(&self)
        ensures sizes { IsSized self.now.contents }
    {
        self.buckets.sized();
    }

    /// A slot; nothing is copied.
    pub fn slot(&self, bucket: u32, slot: u32) -> SlotRef<'_>
        requires bucket_in { bucket < self.now.contents.buckets }
        requires slot_in { slot < self.now.contents.depth }
        ensures { Shows result (slot_at self.now.contents.table (bucket, slot)) }
    {
        self.buckets.slot(bucket, slot)
    }

    /// The lowest empty slot of a bucket.
    pub fn free(&self, bucket: u32) -> Option<u32>
        requires { bucket < length (others_from 0 self.now.contents.table) }
        ensures { result ≡ lowest_empty (others_from 0 self.now.contents.table) bucket }
    {
        self.index.free(bucket)
    }

    /// The other bucket of the entry in a slot.
    pub fn other(&self, bucket: u32, slot: u32) -> u32
        requires { IsSome (other_at (others_from 0 self.now.contents.table) bucket slot) }
        ensures { other_at (others_from 0 self.now.contents.table) bucket slot ≡ Some result }
    {
        self.index.other(bucket, slot)
    }

    /// The other buckets of the entries in a full bucket.
    pub fn others(&self, bucket: u32) -> &[u32]
        requires within { bucket < length (others_from 0 self.now.contents.table) }
        requires full { lowest_empty (others_from 0 self.now.contents.table) bucket ≡ None }
        ensures { let T = others_from 0 self.now.contents.table in
            slots_of T bucket ≡ map (λ other. Some other) result.now }
    {
        self.index.others(bucket)
    }

    /// Whether the other bucket of each entry in a full bucket is full, too.
    pub fn leads_to_full(&self, bucket: u32) -> bool
        requires within { bucket < length (others_from 0 self.now.contents.table) }
        requires full { lowest_empty (others_from 0 self.now.contents.table) bucket ≡ None }
        requires named { let T = others_from 0 self.now.contents.table in
            All (IsBelow (length T)) (slots_of T bucket) }
        ensures { result ≡ leads_to_full (others_from 0 self.now.contents.table) bucket }
    {
        self.index.leads_to_full(bucket)
    }

    /// Writes a record into a slot, over what was there.
    pub fn write_slot(
        &mut self,
        bucket: u32,
        slot: u32,
        position: u64,
        pair: (u32, u32),
        block: &[u8],
    )
        requires bucket_in { bucket < self.old.contents.buckets }
        requires slot_in { slot < self.old.contents.depth }
        requires position { 1 ≤ position }
        requires block { length block.now ≡ self.old.contents.block }
        ensures contents { let s = slot_with position pair block.now in
            self.new.contents ≡ record self.old.contents {
              table = with_slot self.old.contents.table (bucket, slot) s;
            } }
    {
        self.buckets.sized();
        let other = other_of(pair, bucket);
        self.index.set(Step2 { bucket, slot }, Some(other));
        self.buckets.write_slot(bucket, slot, position, pair, block);
    }

    /// Moves a slot's content into an empty slot, and leaves its own empty.
    pub fn move_slot(&mut self, from: Step2, to: Step2)
        requires from_in { let c = self.old.contents in
            (from.bucket < c.buckets) × (from.slot < c.depth) }
        requires to_in { let c = self.old.contents in
            (to.bucket < c.buckets) × (to.slot < c.depth) }
        requires empty { IsTrue (is_empty (slot_at self.old.contents.table (to.bucket, to.slot))) }
        requires other { from ≢ to }
        ensures contents { self.new.contents ≡ record self.old.contents {
          table = with_moved self.old.contents (from.bucket, from.slot) (to.bucket, to.slot);
        } }
    {
        self.buckets.sized();
        let other = seen_in(&self.buckets, to.bucket, from);
        self.index.set(to, other);
        self.index.set(from, None);
        self.buckets.move_slot(from, to);
    }

    /// Empties a slot.
    pub fn clear_slot(&mut self, bucket: u32, slot: u32)
        requires bucket_in { bucket < self.old.contents.buckets }
        requires slot_in { slot < self.old.contents.depth }
        ensures contents { let empty = empty_slot self.old.contents.block in
            self.new.contents ≡ record self.old.contents {
              table = with_slot self.old.contents.table (bucket, slot) empty;
            } }
    {
        self.buckets.sized();
        self.index.set(Step2 { bucket, slot }, None);
        self.buckets.clear_slot(bucket, slot);
    }

    /// Each bucket's bytes as they are now. Later changes don't reach them.
    pub fn snapshot(&mut self, alloc: Global) -> Result<Packed, Memory>
        ensures width { let c = self.old.contents in
            IfOk result (λ p. p.width ≡ bucket_len c.depth c.block) }
        ensures blocks { IfOk result (λ p. p.blocks ≡ blocks_of self.old.contents.table) }
        ensures kept { self.new.contents ≡ self.old.contents }
    {
        self.buckets.snapshot(alloc)
    }
}
