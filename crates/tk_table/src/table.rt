ghost use Rattle.std.specs.Prelude.{◌≡◌, ◌*◌, ◌<◌, ◌≤◌, ◌↔◌, ◌++◌, ◌∷◌, [], List, length, true};
ghost use Rattle.std.specs.Prelude.{All, IfOk};
ghost use Rattle.tk_shape.specs.Lengths.{width};
ghost use Rattle.tk_frames.specs.Order.{Record};
ghost use Rattle.tk_table.specs.Ordered.{AreOrdered};
ghost use Rattle.tk_bucket.specs.Shown.{Shows};
ghost use Rattle.tk_table.specs.Table.{slot_at, window, is_displaced, blocks_of};
ghost use Rattle.tk_table.specs.Stands.{TableStandsFor, IsWrite, IsPair};
ghost use Rattle.tk_table.specs.Inside.{with_room};
ghost use Rattle.tk_table.specs.Restoring.{AreAscending, AreSound, slots_spelled, table_spelled};

use crate::grid::Grid;
use crate::latest::{Latest, Recent};
use crate::learn::pairs_of;
use crate::{Memory, SlotRef, Snapshot};
use std::alloc::Global;
use std::marker::Model;
use tk_place::Scratch;
use tk_shape::Shape;

/// What became of a write.
#[derive(Clone, Copy, Debug, PartialEq, Eq)]
pub enum Put {
    /// It is stored in one of its two buckets.
    Placed,

    /// It is not stored, since it has no placement beside those that are.
    Displaced,
}

/// The table of the latest writes. Seen as its shape, its slots, and the positions of the latest
/// writes; that it knows their buckets too is its own affair.
#[derive(Drop)]
pub struct Table {
    shape: Shape,
    grid: Grid,
    scratch: Scratch,
    latest: Latest,
}

impl Model for Table {
    ghost use Rattle.tk_table.specs.Stands.{Kept};
    ghost use Rattle.tk_table.specs.Inside.{IsKept};

    ghost Value = { Kept };

    ghost view = { λ t. record {
      shape = t.shape;
      slots = t.grid.slots;
      positions = t.latest.positions;
    } };

    ghost invariant = { λ t. IsKept t.shape t.grid.shape t.scratch.buckets t.grid.slots
        t.latest };
}

/// What searches among so many buckets keep their steps in.
fn scratch_for(alloc: Global, buckets: u32) -> Result<Scratch, Memory>
    ensures { IfOk result (λ s. s.buckets ≡ buckets) }
{
    Scratch::new(alloc, buckets).map_err(|_| Memory)
}

impl Table {
    /// An empty table. It takes all its memory here.
    pub fn open(alloc: Global, shape: &Shape) -> Result<Table, Memory>
        ensures shape { IfOk result (λ t. t.shape ≡ shape.now) }
        ensures stands { IfOk result (λ t. TableStandsFor t []) }
    {
        Ok(Table {
            shape: *shape,
            grid: Grid::open(alloc, shape)?,
            scratch: scratch_for(alloc, shape.buckets)?,
            latest: Latest::new(alloc, shape.retained)?,
        })
    }

    /// A table with the slots of these bytes, bucket after bucket, whose latest writes have these
    /// positions, the oldest first. A position with no slot is that of a displaced write. It takes
    /// all its memory here.
    pub fn restore(
        alloc: Global,
        shape: &Shape,
        positions: &[u64],
        bytes: &[u8],
    ) -> Result<Table, Memory>
        requires few { length positions.now ≤ shape.now.retained }
        requires ascending { AreAscending 1 positions.now }
        requires whole { length bytes.now ≡ shape.now.buckets * width shape.now }
        requires sound { AreSound shape.now positions.now (slots_spelled shape.now bytes.now) }
        ensures { IfOk result (λ t. t ≡ record {
          shape = shape.now;
          slots = table_spelled shape.now bytes.now;
          positions = positions.now;
        }) }
    {
        let pairs = pairs_of(alloc, shape, positions, bytes)?;
        Ok(Table {
            shape: *shape,
            grid: Grid::restore(alloc, shape, bytes)?,
            scratch: scratch_for(alloc, shape.buckets)?,
            latest: Latest::of(alloc, shape.retained, positions, pairs.as_slice())?,
        })
    }

    /// The positions of the latest writes, the oldest first.
    pub fn positions(&self) -> &[u64]
        ensures { result.now ≡ self.now.positions }
    {
        self.latest.positions()
    }

    /// A slot; nothing is copied.
    pub fn slot(&self, bucket: u32, slot: u32) -> SlotRef<'_>
        requires bucket_in { bucket < self.now.shape.buckets }
        requires slot_in { slot < self.now.shape.depth }
        ensures { Shows result (slot_at self.now.slots (bucket, slot)) }
    {
        self.grid.slot(bucket, slot)
    }

    /// Where there are as many latest writes as are retained, the oldest leaves.
    fn make_room(&mut self)
        ensures table { self.new ≡ with_room self.old }
        ensures room { length self.new.positions < self.old.shape.retained }
    {
        if self.latest.len() < self.shape.retained as usize {
            return;
        }
        let oldest = self.latest.leave();
        self.grid.expire(oldest);
    }

    /// Takes a write. First the oldest of the latest writes leaves, where there are as many as are
    /// retained. The new one is stored where all that are stored and it have a placement; nothing
    /// leaves to make room for it.
    pub fn put(&mut self, position: u64, pair: (u32, u32), block: &[u8]) -> Put
        requires first { 1 ≤ position }
        requires above { All (λ p. p < position) self.old.positions }
        requires pair { IsPair self.old.shape pair }
        requires block { length block.now ≡ self.old.shape.block }

        ensures shape { self.new.shape ≡ self.old.shape }
        ensures positions { self.new.positions
            ≡ window self.old.shape (self.old.positions ++ position ∷ []) }
        ensures latest { All (λ p. p ≤ position) self.new.positions }

        // whatever records the table stands for
        ensures stands { (R : List Record) (w : Record)
            → TableStandsFor self.old R → AreOrdered self.old.shape R
            → IsWrite w position pair block.now
            → TableStandsFor self.new (R ++ w ∷ []) }
        ensures displaced { (R : List Record) (w : Record)
            → TableStandsFor self.old R → AreOrdered self.old.shape R
            → IsWrite w position pair block.now
            → (result ≡ Put.Displaced) ↔ (is_displaced self.old.shape R w ≡ true) }
    {
        self.make_room();
        let put = self.grid.put(&mut self.scratch, position, pair, block);
        self.latest.come(Recent { position, pair });
        put
    }

    /// Each bucket's bytes as they are now. Later writes don't reach them.
    pub fn snapshot(&mut self, alloc: Global) -> Result<Snapshot, Memory>
        ensures width { IfOk result (λ s. s.width ≡ width self.old.shape) }
        ensures blocks { IfOk result (λ s. s.blocks ≡ blocks_of self.old.slots) }
        ensures counted { IfOk result (λ s. length s.blocks ≡ self.old.shape.buckets) }
        ensures kept { self.new ≡ self.old }
    {
        self.grid.snapshot(alloc)
    }
}
