ghost use Rattle.std.specs.Prelude.{◌≡◌, ◌+◌, ◌-◌, ◌<◌, ◌≤◌, ◌++◌, ◌∷◌, [], length, drop, IfOk};
ghost use Rattle.std.specs.Prelude.{OnOk};
ghost use Rattle.std.specs.Prelude.{OnErr, slice_index_or};
ghost use Rattle.std.specs.Arc.{arc_value};
ghost use Rattle.tk_replica.specs.declared.epoch.Epoch.{Epoch};
ghost use Rattle.tk_replica.specs.Shelf.{IsShelf};

use crate::Epoch;
use std::alloc::Global;
use std::collections::VecDeque;
use std::marker::Model;
use std::sync::Arc;
use tk_shape::Memory;

/// The epochs that are kept, one for each number from the floor to the last.
#[derive(Drop)]
pub(crate) struct Shelf {
    floor: u32,
    last: u32,
    epochs: VecDeque<Arc<Epoch>>,
}

impl Model for Shelf {
    ghost use Rattle.std.specs.Prelude.{map};
    ghost use Rattle.std.specs.Arc.{arc_value};
    ghost use Rattle.tk_replica.specs.Shelf.{Shelved, IsShelf};

    ghost Value = { Shelved };

    ghost view = { λ s. record {
      floor = s.floor;
      last = s.last;
      epochs = map arc_value s.epochs.items;
    } };

    ghost invariant = { λ s. IsShelf s.floor s.last (map arc_value s.epochs.items) };
}

impl Shelf {
    /// One epoch alone, which has that number.
    pub(crate) fn open(alloc: Global, number: u32, first: Arc<Epoch>) -> Result<Shelf, Memory>
        ensures { IfOk result (λ s.
            s ≡ record { floor = number; last = number; epochs = arc_value first ∷ [] }) }
    {
        let mut epochs = VecDeque::with_capacity(alloc, 2)?;
        epochs.push_back_reserved(first);
        Ok(Shelf {
            floor: number,
            last: number,
            epochs,
        })
    }

    /// Has no effect, and says that there is an epoch for each number, whichever were let go.
    pub(crate) fn counted(&self)
        ensures { IsShelf self.now.floor self.now.last self.now.epochs }
    {
        let _ = &self.epochs;
    }

    /// The first number.
    pub(crate) fn floor(&self) -> u32
        ensures { result ≡ self.now.floor }
    {
        self.floor
    }

    /// The last number.
    pub(crate) fn last(&self) -> u32
        ensures last { result ≡ self.now.last }
        ensures some { self.now.floor ≤ self.now.last }
    {
        self.last
    }

    /// The epoch of a number.
    pub(crate) fn get(&self, number: u32) -> &Arc<Epoch>
        requires low { self.now.floor ≤ number }
        requires high { number ≤ self.now.last }
        ensures there { number - self.now.floor < length self.now.epochs }
        ensures at { (d : Epoch)
            → arc_value result.now ≡ slice_index_or self.now.epochs (number - self.now.floor) d }
    {
        &self.epochs[(number - self.floor) as usize]
    }

    /// Puts the next epoch after the others.
    pub(crate) fn push(&mut self, number: u32, epoch: Arc<Epoch>) -> Result<(), Memory>
        requires { number ≡ self.old.last + 1 }
        ensures pushed { OnOk result (self.new ≡ record self.old {
          last = number;
          epochs = self.old.epochs ++ arc_value epoch ∷ [];
        }) }
        ensures kept { OnErr result (self.new ≡ self.old) }
    {
        self.epochs.reserve(1)?;
        self.epochs.push_back_reserved(epoch);
        self.last = number;
        Ok(())
    }

    /// Lets the epochs below a number go.
    pub(crate) fn release(&mut self, number: u32)
        requires low { self.old.floor ≤ number }
        requires high { number ≤ self.old.last }
        ensures { self.new ≡ record self.old {
          floor = number;
          epochs = drop (number - self.old.floor) self.old.epochs;
        } }
    {
        drop_front(&mut self.epochs, number - self.floor);
        self.floor = number;
    }
}

/// Takes the first epochs away.
fn drop_front(epochs: &mut VecDeque<Arc<Epoch>>, count: u32)
    ensures { epochs.new.items ≡ drop count epochs.old.items }
{
    for _ in 0..count {
        epochs.pop_front();
    }
}
