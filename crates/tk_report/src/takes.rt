ghost use Rattle.std.specs.Prelude.{◌≡◌, ◌++◌, ◌∷◌, [], List, length, OnOk};
ghost use Rattle.tk_shape.specs.declared.shape.Shape.{Shape};
ghost use Rattle.tk_frames.specs.declared.entry.Placed.{Placed};
ghost use Rattle.tk_frames.specs.InOrder.{IsNext, IsOrder};
ghost use Rattle.tk_report.specs.Taking.{HasTaken, MayTake, MayPlace};
ghost use Rattle.tk_report.specs.Turns.{next_placed};

use std::alloc::Global;
use tk_frames::{Entry, Placed};
use tk_shape::Memory;

/// What takes the entries of a run, one after the other.
pub trait Takes {
    /// From what it was, which had taken the first entries of a shape, it became what it is by
    /// taking the second after them.
    ghost took: { Self → Shape → List Placed → List Placed → Self → Type 0 };

    /// How many entries it has taken.
    fn taken(&self) -> u64
        requires { HasTaken took self.now }
        ensures { (was : Self) (shape : Shape) (E F : List Placed) → took was shape E F self.now
            → result ≡ length (E ++ F) };

    /// Takes the next entry. Where memory runs out nothing is promised.
    fn take(&mut self, alloc: Global, placed: &Placed) -> Result<(), Memory>
        requires { MayTake took placed.now self.old }
        ensures { (was : Self) (shape : Shape) (E F : List Placed) → took was shape E F self.old
            → IsNext shape (E ++ F) placed.now
            → OnOk result (took was shape E (F ++ placed.now ∷ []) self.new) };

    /// What it has taken is in order.
    ghost in_order: { (was : Self) (shape : Shape) (E F : List Placed) (is : Self)
        → took was shape E F is → IsOrder shape (E ++ F) };
}

/// Gives an entry its place after those that were taken.
pub(crate) fn place_next<T: Takes>(alloc: Global, entry: Entry, taker: &mut T) -> Result<(), Memory>
    requires { MayPlace T.took entry taker.old }
    ensures { (was : T) (shape : Shape) (E F : List Placed) → T.took was shape E F taker.old
        → IsNext shape (E ++ F) (next_placed (E ++ F) entry)
        → OnOk result (T.took was shape E (F ++ next_placed (E ++ F) entry ∷ []) taker.new) }
{
    let position = taker.taken() + 1;
    taker.take(alloc, &Placed { position, entry })
}
