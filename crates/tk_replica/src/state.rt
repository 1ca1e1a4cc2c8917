ghost use Rattle.std.specs.Prelude.{◌≡◌, ◌-◌, ◌≤◌, [], List, None, Some, drop, slice_index_or, All, IfOk};
ghost use Rattle.std.specs.Prelude.{IfErr, OnOk};
ghost use Rattle.std.specs.Arc.{arc_value};
ghost use Rattle.tk_shape.specs.declared.shape.Shape.{Shape};
ghost use Rattle.tk_frames.specs.declared.entry.Placed.{Placed};
ghost use Rattle.tk_replica.specs.declared.epoch.Epoch.{Epoch};
ghost use Rattle.tk_replica.specs.Epochs.{IsEpochOf};
ghost use Rattle.tk_replica.specs.Replica.{StandsFor};
ghost use Rattle.tk_replica.specs.Store.{IsStore};
ghost use Rattle.tk_replica.specs.Restoring.{IsRestored, HasLeft};
ghost use Rattle.tk_replica.specs.Shelf.{IsShelf, IsHeld};
ghost use Rattle.tk_replica.specs.Refusals.{pin_refusal, IsPinRefusal};
ghost use Rattle.tk_replica.specs.Keeping.{Released, numbers_of, numbers_behind, opening};

use crate::shelf::Shelf;
use crate::store::Store;
use crate::{Epoch, PinError};
use std::alloc::Global;
use std::marker::Model;
use std::sync::Arc;
use tk_bloom::Window;
use tk_shape::{Memory, Shape};
use tk_table::Table;

/// What a server has after some entries. Seen as how many were applied, the last epoch and the
/// first that is kept, the table and the window, and the epochs that are kept.
#[derive(Drop)]
pub struct ReplicaState {
    pub(crate) applied: u64,
    pub(crate) store: Store,
    pub(crate) shelf: Shelf,
}

impl Model for ReplicaState {
    ghost use Rattle.tk_replica.specs.Replica.{ReplicaView, IsReplica, replica_with};

    ghost Value = { ReplicaView };

    ghost view = { λ r. replica_with r.applied r.store r.shelf };

    ghost invariant = { λ r. IsReplica (replica_with r.applied r.store r.shelf) };
}

impl ReplicaState {
    /// The state before any entry. It keeps epoch 0.
    pub fn open(alloc: Global, shape: &Shape) -> Result<ReplicaState, Memory>
        ensures stands { IfOk result (StandsFor shape.now []) }
        ensures numbers { IfOk result (λ s. numbers_of s ≡ opening) }
        ensures floor { IfOk result (λ s. s.floor ≡ 0) }
    {
        let mut store = Store::open(alloc, shape)?;
        let first = store.epoch(alloc, 0, 0)?;
        Ok(ReplicaState {
            applied: 0,
            store,
            shelf: Shelf::open(alloc, 0, first)?,
        })
    }

    /// The state after `applied` entries that end with mark `last`, or after none, of which these
    /// are the table and the window. It keeps one epoch, that of this mark.
    pub fn restore(
        alloc: Global,
        shape: &Shape,
        applied: u64,
        last: u32,
        table: Table,
        window: Window,
    ) -> Result<ReplicaState, Memory>
        requires parts { IsStore shape.now table window }
        requires latest { All (λ p. p ≤ applied) table.positions }
        ensures restored { IfOk result (IsRestored shape.now applied last table window) }
        ensures stands { (E : List Placed) → HasLeft shape.now E applied last table window
            → IfOk result (StandsFor shape.now E) }
    {
        let mut store = Store::of(shape, table, window);
        let epoch = store.epoch(alloc, last, applied)?;
        Ok(ReplicaState {
            applied,
            store,
            shelf: Shelf::open(alloc, last, epoch)?,
        })
    }

    /// Has no effect, and says that the table and the window are of the state's shape, and that an
    /// epoch is kept for each number from the floor to the last, whatever was applied.
    pub fn matched(&self)
        ensures parts { IsStore self.now.shape self.now.table self.now.window }
        ensures epochs { IsShelf self.now.floor self.now.last self.now.kept }
    {
        self.store.matched();
        self.shelf.counted();
    }

    /// The shape of the entries that it takes.
    pub fn shape(&self) -> &Shape
        ensures { result.now ≡ self.now.shape }
    {
        self.store.shape()
    }

    /// The table of the latest writes, as it is now.
    pub fn slots(&self) -> &Table
        ensures { result.now ≡ self.now.table }
    {
        self.store.table()
    }

    /// The window of their positions in the filter, as it is now.
    pub fn window(&self) -> &Window
        ensures { result.now ≡ self.now.window }
    {
        self.store.window()
    }

    /// How many entries were applied.
    pub fn applied(&self) -> u64
        ensures { result ≡ self.now.applied }
    {
        self.applied
    }

    /// The number of the last mark that was applied; 0 before the first.
    pub fn last(&self) -> u32
        ensures { result ≡ self.now.last }
    {
        self.shelf.last()
    }

    /// The first epoch that is kept.
    pub fn floor(&self) -> u32
        ensures { result ≡ self.now.floor }
    {
        self.shelf.floor()
    }

    /// An epoch that is kept.
    pub fn epoch(&self, e: u32) -> &Epoch
        requires low { self.now.floor ≤ e }
        requires high { e ≤ self.now.last }
        ensures at { (d : Epoch)
            → result.now ≡ slice_index_or self.now.kept (e - self.now.floor) d }
        ensures same { result.now.shape ≡ self.now.shape }
        ensures stands { (shape : Shape) (E : List Placed)
            → StandsFor shape E self.now → IsEpochOf shape E e result.now }
    {
        self.get(e)
    }

    /// The same epoch, which the caller then keeps, however long the state does.
    pub fn pin(&self, e: u32) -> Result<Arc<Epoch>, PinError>
        ensures kept { OnOk result (pin_refusal self.now e ≡ None) }
        ensures refused { IfErr result (IsPinRefusal (pin_refusal self.now e)) }
        ensures stands { (shape : Shape) (E : List Placed) → StandsFor shape E self.now
            → IfOk result (λ epoch. IsEpochOf shape E e (arc_value epoch)) }
    {
        self.check(e)?;
        Ok(Arc::try_clone(self.get(e))?)
    }

    /// An epoch that is kept, as it is kept.
    pub(crate) fn get(&self, e: u32) -> &Arc<Epoch>
        requires low { self.now.floor ≤ e }
        requires high { e ≤ self.now.last }
        ensures at { (d : Epoch)
            → arc_value result.now ≡ slice_index_or self.now.kept (e - self.now.floor) d }
        ensures same { (arc_value result.now).shape ≡ self.now.shape }
        ensures stands { (shape : Shape) (E : List Placed)
            → StandsFor shape E self.now → IsEpochOf shape E e (arc_value result.now) }
    {
        self.shelf.get(e)
    }

    /// Refuses an epoch that isn't kept.
    pub(crate) fn check(&self, e: u32) -> Result<(), PinError>
        ensures kept { OnOk result (pin_refusal self.now e ≡ None) }
        ensures held { OnOk result (IsHeld self.now.floor self.now.last e) }
        ensures refused { IfErr result (λ error. pin_refusal self.now e ≡ Some error) }
    {
        if e > self.shelf.last() {
            return Err(PinError::Ahead {
                last: self.shelf.last(),
            });
        }
        if e < self.shelf.floor() {
            return Err(PinError::Retired {
                floor: self.shelf.floor(),
            });
        }
        Ok(())
    }

    /// Lets the epochs below `e` go.
    pub fn release(&mut self, e: u32)
        requires low { self.old.floor ≤ e }
        requires high { e ≤ self.old.last }
        ensures kept { self.new ≡ record self.old {
          floor = e;
          kept = drop (e - self.old.floor) self.old.kept;
        } }
        ensures numbers { numbers_of self.new ≡ numbers_behind (numbers_of self.old) (Released e) }
        ensures stands { (shape : Shape) (E : List Placed)
            → StandsFor shape E self.old → StandsFor shape E self.new }
    {
        self.shelf.release(e);
    }
}
