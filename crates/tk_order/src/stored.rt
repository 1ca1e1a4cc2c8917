ghost use Rattle.std.specs.Prelude.{◌≡◌, ◌+◌, ◌-◌, ◌≤◌, [], length, map, take, drop};
ghost use Rattle.std.specs.Prelude.{Some, None, IfOk, OnErr, MatchOption};
ghost use Rattle.std.specs.Arc.{arc_value};
ghost use Rattle.tk_order.specs.Legality.{number_of, with_entry, IsLegal, MayFollow};
ghost use Rattle.tk_order.specs.Rules.{view};
ghost use Rattle.tk_order.specs.Seats.{own, SeesMore, Puts, IsWhole};

use crate::counts::Counts;
use crate::journal::Journal;
use crate::rule::{Naming, Place};
use crate::seat::OrderSeat;
use std::alloc::{AllocError, Global};
use std::marker::{Model, PhantomData};
use std::sync::{Arc, Wait};
use tk_frames::{Entry, Placed};
use tk_shape::Memory;

/// What lies under an order's lock: the list, with a seat that has seen just this list. Seen as
/// the list.
#[derive(Drop)]
pub struct Stored<B: Naming> {
    alloc: Global,
    entries: Vec<Arc<Placed>>,
    place: Place,
    of: PhantomData<B>,
}

impl<B: Naming> Model for Stored<B> {
    ghost use Rattle.std.specs.Prelude.{List, map};
    ghost use Rattle.std.specs.Arc.{arc_value};
    ghost use Rattle.tk_frames.specs.declared.entry.Placed.{Placed};
    ghost use Rattle.tk_order.specs.Stores.{IsStored};

    ghost Value = { List Placed };

    ghost view = { λ s. map (λ a. arc_value a) s.entries.items };

    ghost invariant = { λ s.
        IsStored B.table B.shape s.place (map (λ a. arc_value a) s.entries.items) };
}

impl<B: Naming> Stored<B> {
    pub(crate) fn new(alloc: Global, note: Place) -> Stored<B>
        requires { (note.table_id ≡ B.table) × (note.me ≡ (view [] [] [], [])) }
        ensures { result ≡ [] }
    {
        Stored {
            alloc,
            entries: Vec::new(alloc),
            place: note,
            of: PhantomData,
        }
    }

    /// Puts an entry after the list and answers its position, or None where the list has grown
    /// elsewhere.
    pub(crate) fn append(
        &mut self,
        counts: &Counts<B>,
        seat: &mut OrderSeat<B>,
        entry: &Entry,
    ) -> Result<Option<u64>, Memory>
        requires seat { seat.old.number ≡ Some (number_of entry.now) }
        requires may { MayFollow B.shape (own seat.old) entry.now }
        ensures ok { IfOk result (λ o. MatchOption o
            ((self.new ≡ self.old) × SeesMore seat.old seat.new)
            (λ p. (self.new ≡ with_entry self.old entry.now) × (p ≡ length self.new)
            × Puts seat.old self.old entry.now seat.new)) }
        ensures err { OnErr result ((self.new ≡ self.old) × (seat.new ≡ seat.old)) }
    {
        self.entries.reserve(1)?;
        let count = self.entries.len() as u64;
        let position = count + 1;
        let entry = entry.clone()?;
        let kept = Arc::new(self.alloc, Placed { position, entry })?;
        let note = counts.note(&mut self.place);
        if !seat.append(counts, note, count, &kept) {
            return Ok(None);
        }
        self.place = seat.note(counts);
        self.entries.push_reserved(kept);
        Ok(Some(position))
    }

    /// The entries from one position to another of the seat's list, or None where the stored list
    /// is still shorter.
    pub(crate) fn fetch(
        &mut self,
        counts: &Counts<B>,
        seat: &mut OrderSeat<B>,
        from: u64,
        to: u64,
    ) -> Result<Option<Vec<Arc<Placed>>>, Memory>
        requires from { (1 ≤ from) × (from ≤ to + 1) }
        requires to { to ≤ length seat.old.seen }
        ensures same { self.new ≡ self.old }
        ensures sees { SeesMore seat.old seat.new }
        ensures ok { IfOk result (λ o. MatchOption o (Unit {0})
            (λ v. map (λ a. arc_value a) v.items ≡ drop (from - 1) (take to seat.old.seen))) }
    {
        let count = self.entries.len() as u64;
        let note = counts.note(&mut self.place);
        seat.learn(counts, note, count);
        if count < to {
            return Ok(None);
        }
        let part = &self.entries.as_slice()[from as usize - 1..to as usize];
        Ok(Some(copied(self.alloc, part)?))
    }

    /// Takes in all seats, and answers the list once it is whole.
    pub(crate) fn close<R: Wait>(
        self,
        rt: &R,
        counts: &Counts<B>,
        seats: Vec<OrderSeat<B>>,
    ) -> Journal
        ensures whole { IsWhole seats.items result }
        ensures legal { IsLegal B.shape result }
    {
        let Stored {
            alloc: _,
            entries,
            mut place,
            of: _,
        } = self;
        for seat in seats {
            counts.gather(&mut place, seat.into_place());
            counts.look(&mut place);
        }
        for _ in rt.forever() {
            if counts.look(&mut place) == entries.len() as u64 {
                return Journal { entries };
            }
        }
        unreachable!()
    }
}

/// The same entries, each shared.
fn copied(alloc: Global, entries: &[Arc<Placed>]) -> Result<Vec<Arc<Placed>>, AllocError>
    ensures { IfOk result
        (λ v. map (λ a. arc_value a) v.items ≡ map (λ a. arc_value a) entries.now) }
{
    let mut out = Vec::with_capacity(alloc, entries.len())?;
    for entry in entries {
        out.push(Arc::try_clone(entry)?)?;
    }
    Ok(out)
}
