ghost use Rattle.std.specs.Prelude.{◌≡◌, ◌+◌, ◌↔◌, ◌++◌, ◌∷◌, [], List, true, false};
ghost use Rattle.std.specs.Prelude.{IsOk, IfOk, OnOk, OnErr};
ghost use Rattle.tk_shape.specs.declared.shape.Shape.{Shape};
ghost use Rattle.tk_frames.specs.declared.entry.Placed.{Placed};
ghost use Rattle.tk_frames.specs.Order.{Record, is_mark};
ghost use Rattle.tk_frames.specs.Ranges.{IsWrite};
ghost use Rattle.tk_table.specs.Ordered.{AreOrdered};
ghost use Rattle.tk_table.specs.Puts.{put_of};
ghost use Rattle.tk_table.specs.Stands.{TableStandsFor, IsWrite as IsRecord};
ghost use Rattle.tk_table.specs.Table.{is_displaced};
ghost use Rattle.tk_replica.specs.declared.epoch.Epoch.{Epoch};
ghost use Rattle.tk_frames.specs.InOrder.{IsNextAt};
ghost use Rattle.tk_replica.specs.Store.{IsTaken, pushed};
ghost use Rattle.tk_replica.specs.Replica.{StandsFor};
ghost use Rattle.tk_replica.specs.Keeping.{Applied, numbers_of, numbers_behind};

use crate::ReplicaState;
use std::alloc::Global;
use tk_frames::{Entry, Placed, WriteFrame};
use tk_shape::Memory;
use tk_table::Put;

impl ReplicaState {
    /// Takes the next entry. A write takes no memory. A mark makes the next epoch; where there is
    /// no memory for it, nothing changes.
    pub fn apply(&mut self, alloc: Global, placed: &Placed) -> Result<(), Memory>
        requires { IsNextAt self.old.shape (self.old.applied + 1) (self.old.last + 1) placed.now }
        ensures stands { (shape : Shape) (E : List Placed) → StandsFor shape E self.old
            → OnOk result (StandsFor shape (E ++ placed.now ∷ []) self.new) }
        ensures shape { self.new.shape ≡ self.old.shape }
        ensures floor { self.new.floor ≡ self.old.floor }
        ensures numbers { OnOk result
            (numbers_of self.new ≡ numbers_behind (numbers_of self.old) (Applied placed.now)) }
        ensures write { is_mark placed.now.entry ≡ false → IsOk result }
        ensures memory { OnErr result (self.new ≡ self.old) }
    {
        self.apply_and_tell(alloc, placed)?;
        Ok(())
    }

    /// The same, and says what became of the entry where it is a write.
    pub fn apply_and_tell(&mut self, alloc: Global, placed: &Placed) -> Result<Option<Put>, Memory>
        requires { IsNextAt self.old.shape (self.old.applied + 1) (self.old.last + 1) placed.now }
        ensures put { (shape : Shape) (E : List Placed) → StandsFor shape E self.old
            → IfOk result (λ put. put ≡ put_of shape E placed.now) }
        ensures stands { (shape : Shape) (E : List Placed) → StandsFor shape E self.old
            → OnOk result (StandsFor shape (E ++ placed.now ∷ []) self.new) }
        ensures shape { self.new.shape ≡ self.old.shape }
        ensures floor { self.new.floor ≡ self.old.floor }
        ensures numbers { OnOk result
            (numbers_of self.new ≡ numbers_behind (numbers_of self.old) (Applied placed.now)) }
        ensures write { is_mark placed.now.entry ≡ false → IsOk result }
        ensures memory { OnErr result (self.new ≡ self.old) }
    {
        match &placed.entry {
            Entry::Write(write) => Ok(Some(self.put(placed.position, write))),
            Entry::Mark(number) => {
                self.mark(alloc, placed.position, *number)?;
                Ok(None)
            }
        }
    }

    /// Takes a write, and answers what became of it.
    fn put(&mut self, position: u64, write: &WriteFrame) -> Put
        requires in_range { IsWrite self.old.shape write.now }
        requires next { position ≡ self.old.applied + 1 }
        ensures rest { self.new ≡ record self.old {
          applied = position;
          table = self.new.table;
          window = pushed self.old.window write.now.hits;
        } }
        ensures table_shape { self.new.table.shape ≡ self.old.table.shape }
        ensures table { (R : List Record) (w : Record)
            → TableStandsFor self.old.table R → AreOrdered self.old.table.shape R
            → IsRecord w position (write.now.first, write.now.second) write.now.block
            → TableStandsFor self.new.table (R ++ w ∷ []) }
        ensures displaced { (R : List Record) (w : Record)
            → TableStandsFor self.old.table R → AreOrdered self.old.table.shape R
            → IsRecord w position (write.now.first, write.now.second) write.now.block
            → (result ≡ Put.Displaced) ↔ (is_displaced self.old.table.shape R w ≡ true) }
    {
        self.applied = position;
        self.store.put(position, write)
    }

    /// Takes a mark, which makes the next epoch.
    fn mark(&mut self, alloc: Global, position: u64, number: u32) -> Result<(), Memory>
        requires next { position ≡ self.old.applied + 1 }
        requires due { number ≡ self.old.last + 1 }
        ensures epoch { OnOk result ((epoch : Epoch)
            × IsTaken self.old.shape number position self.old.table self.old.window epoch
            × (self.new ≡ record self.old {
              applied = position;
              last = number;
              kept = self.old.kept ++ epoch ∷ [];
            })) }
        ensures memory { OnErr result (self.new ≡ self.old) }
    {
        let epoch = self.store.epoch(alloc, number, position)?;
        self.shelf.push(number, epoch)?;
        self.applied = position;
        Ok(())
    }
}
