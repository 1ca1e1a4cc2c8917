ghost use Rattle.std.specs.Prelude.{◌≡◌, ℕ, ◌*◌, ◌<◌, ◌≤◌, ◌↔◌, length, All, None, IfOk};
ghost use Rattle.tk_place.specs.Place.{search_end};
ghost use Rattle.tk_shape.specs.Lengths.{width};
ghost use Rattle.tk_bucket.specs.Shown.{Shows};
ghost use Rattle.tk_table.specs.Table.{bucket_at, slot_at, empty_table, others_from, placed_in, blocks_of};
ghost use Rattle.tk_table.specs.Stands.{slot_with, IsPair};
ghost use Rattle.tk_table.specs.Steps.{cleared_all};
ghost use Rattle.tk_table.specs.Inside.{EachHas, HasPair, IsSlotIn};
ghost use Rattle.tk_table.specs.Restoring.{table_spelled};

use crate::chain::{clear_in, store};
use crate::indexed::Indexed;
use crate::latest::Recent;
use crate::{Memory, Put, Snapshot};
use std::alloc::Global;
use std::marker::Model;
use tk_bucket::SlotRef;
use tk_place::{Found, Scratch, Slots, find};
use tk_shape::Shape;

/// The slots of a table of some shape, where each entry is in one of its two buckets.
#[derive(Debug, Drop)]
pub(crate) struct Grid {
    shape: Shape,
    buckets: Indexed,
}

impl Model for Grid {
    ghost use Rattle.tk_table.specs.Inside.{Laid, IsGrid};

    ghost Value = { Laid };

    ghost view = { λ g. record { shape = g.shape; slots = g.buckets.contents.table } };

    ghost invariant = { λ g. IsGrid g.shape g.buckets.contents };
}

impl Grid {
    /// Empty slots.
    pub(crate) fn open(alloc: Global, shape: &Shape) -> Result<Grid, Memory>
        ensures { IfOk result (λ g. g ≡ record {
          shape = shape.now;
          slots = empty_table shape.now;
        }) }
    {
        Ok(Grid {
            shape: *shape,
            buckets: Indexed::new(alloc, shape.buckets, shape.depth, shape.block)?,
        })
    }

    /// The slots of these bytes, bucket after bucket.
    pub(crate) fn restore(alloc: Global, shape: &Shape, bytes: &[u8]) -> Result<Grid, Memory>
        requires whole { length bytes.now ≡ shape.now.buckets * width shape.now }
        requires own { let T = table_spelled shape.now bytes.now in
            (b : ℕ) → All (IsSlotIn shape.now b) (bucket_at T b) }
        ensures { IfOk result (λ g. g ≡ record {
          shape = shape.now;
          slots = table_spelled shape.now bytes.now;
        }) }
    {
        Ok(Grid {
            shape: *shape,
            buckets: Indexed::restore(alloc, shape.buckets, shape.depth, shape.block, bytes)?,
        })
    }

    /// A slot; nothing is copied.
    pub(crate) fn slot(&self, bucket: u32, slot: u32) -> SlotRef<'_>
        requires bucket_in { bucket < self.now.shape.buckets }
        requires slot_in { slot < self.now.shape.depth }
        ensures { Shows result (slot_at self.now.slots (bucket, slot)) }
    {
        self.buckets.slot(bucket, slot)
    }

    /// Empties the slot of a write, if it has one.
    pub(crate) fn expire(&mut self, write: Recent)
        requires pair { IsPair self.old.shape write.pair }
        requires own { EachHas (HasPair write.position write.pair) self.old.slots }
        ensures { let block = self.old.shape.block in
            self.new ≡ record self.old {
              slots = cleared_all block write.position self.old.slots;
            } }
    {
        let depth = self.shape.depth;
        clear_in(&mut self.buckets, depth, write.pair.0, write.position);
        clear_in(&mut self.buckets, depth, write.pair.1, write.position);
    }

    /// Stores a write, and moves others to make room for it, where all have a placement.
    pub(crate) fn put(
        &mut self,
        scratch: &mut Scratch,
        position: u64,
        pair: (u32, u32),
        block: &[u8],
    ) -> Put
        requires size { scratch.old.buckets ≡ self.old.shape.buckets }
        requires position { 1 ≤ position }
        requires pair { IsPair self.old.shape pair }
        requires block { length block.now ≡ self.old.shape.block }
        ensures size { scratch.new.buckets ≡ scratch.old.buckets }
        ensures slots { let s = slot_with position pair block.now in
            self.new ≡ record self.old { slots = placed_in self.old.slots s } }
        ensures displaced { let T = others_from 0 self.old.slots in
            (result ≡ Put.Displaced) ↔ (search_end T pair ≡ None) }
    {
        match find(&*self, pair, scratch) {
            Found::Chain(count) => {
                store(&mut self.buckets, scratch, count, position, pair, block);
                Put::Placed
            }
            Found::NoPlace => Put::Displaced,
        }
    }

    /// The bytes of each bucket as they are now.
    pub(crate) fn snapshot(&mut self, alloc: Global) -> Result<Snapshot, Memory>
        ensures width { IfOk result (λ s. s.width ≡ width self.old.shape) }
        ensures blocks { IfOk result (λ s. s.blocks ≡ blocks_of self.old.slots) }
        ensures counted { IfOk result (λ s. length s.blocks ≡ self.old.shape.buckets) }
        ensures kept { self.new ≡ self.old }
    {
        let packed = self.buckets.snapshot(alloc)?;
        Ok(Snapshot::from_packed(packed))
    }
}

impl Slots for Grid {
    ghost others = { λ g. others_from 0 g.slots };

    ghost depth = { λ g. g.shape.depth };

    fn buckets(&self) -> u32 {
        self.shape.buckets
    }

    fn depth(&self) -> u32 {
        self.shape.depth
    }

    fn free(&self, bucket: u32) -> Option<u32> {
        self.buckets.free(bucket)
    }

    fn other(&self, bucket: u32, slot: u32) -> u32 {
        self.buckets.other(bucket, slot)
    }

    fn others(&self, bucket: u32) -> &[u32] {
        self.buckets.others(bucket)
    }

    fn leads_to_full(&self, bucket: u32) -> bool {
        self.buckets.leads_to_full(bucket)
    }
}
