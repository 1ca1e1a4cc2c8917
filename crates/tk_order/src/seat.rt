ghost use Rattle.std.specs.Prelude.{◌≡◌, ◌+◌, ◌<◌, ◌^◌, [], length, Some, None, MatchBool};
ghost use Rattle.tk_order.specs.Legality.{seat_of, IsLegal, MayFollow, placed};
ghost use Rattle.tk_order.specs.Rules.{view};
ghost use Rattle.tk_order.specs.Seats.{own, seated, claims_of, SeesMore, Puts, Meets};

use crate::counts::Counts;
use crate::rule::{Naming, Place};
use std::marker::{Model, PhantomData};
use std::sync::Wait;
use tk_frames::Placed;

/// A seat of an order. Seen as the list that it has seen, and its number.
#[derive(Drop)]
pub struct OrderSeat<B: Naming> {
    place: Place,
    count: u64,
    number: Option<u64>,
    ordered: u32,
    of: PhantomData<B>,
}

impl<B: Naming> Model for OrderSeat<B> {
    ghost use Rattle.tk_order.specs.Seats.{Seated, IsSeat, seated};

    ghost Value = { Seated };

    ghost view = { λ s. seated s.place.me.0.seen s.number };

    ghost invariant = { λ s. IsSeat B.table B.shape s.place s.count s.number s.ordered };
}

impl<B: Naming> OrderSeat<B> {
    /// The length of the list that it has seen.
    pub fn seen(&self) -> u64
        ensures { result ≡ length self.now.seen }
    {
        self.count
    }

    /// How many entries it ordered.
    pub fn ordered(&self) -> u32
        ensures { result ≡ length (own self.now) }
    {
        self.ordered
    }

    /// What it has seen may be an order: its entries are in range, with positions from 1 and marks
    /// numbered from 1, and no client has more writes than turns.
    pub fn legal(&self)
        ensures { IsLegal B.shape self.now.seen }
    {
        let _ = &self.count;
    }

    /// A seat without a number, from a note of another.
    pub(crate) fn of_note(note: Place, count: u64) -> OrderSeat<B>
        requires table { (note.table_id ≡ B.table) × (note.me.1 ≡ [])
            × (note.me.0.claims ≡ []) }
        requires count { count ≡ length note.me.0.seen }
        requires legal { IsLegal B.shape note.me.0.seen }
        ensures { result ≡ seated note.me.0.seen None }
    {
        OrderSeat {
            place: note,
            count,
            number: None,
            ordered: 0,
            of: PhantomData,
        }
    }

    /// A seat with a number, from a note of nothing. It waits until its number is due.
    pub(crate) fn numbered<R: Wait>(
        rt: &R,
        counts: &Counts<B>,
        note: Place,
        due: u64,
    ) -> OrderSeat<B>
        requires note { (note.table_id ≡ B.table) × (note.me ≡ (view [] [] [], [])) }
        requires room { due + 1 < 2 ^ 64 }
        ensures { result ≡ seated [] (Some due) }
    {
        let mut seat = OrderSeat::of_note(note, 0);
        for _ in rt.forever() {
            if seat.draw(counts, due) {
                return seat;
            }
        }
        unreachable!()
    }

    pub(crate) fn look(&mut self, counts: &Counts<B>) -> u64
        ensures sees { SeesMore self.old self.new }
        ensures now { result ≡ length self.new.seen }
    {
        let found = counts.look(&mut self.place);
        self.count = found;
        found
    }

    /// A note of what it has seen.
    pub(crate) fn note(&mut self, counts: &Counts<B>) -> Place
        ensures same { self.new ≡ self.old }
        ensures note { (result.table_id ≡ B.table)
            × (result.me ≡ (view self.old.seen [] [], [])) }
        ensures legal { IsLegal B.shape self.old.seen }
    {
        counts.note(&mut self.place)
    }

    pub(crate) fn split(&mut self, counts: &Counts<B>) -> OrderSeat<B>
        ensures same { self.new ≡ self.old }
        ensures new { result ≡ seated self.old.seen None }
    {
        let note = counts.note(&mut self.place);
        OrderSeat::of_note(note, self.count)
    }

    /// Takes in a note of that many entries.
    pub(crate) fn learn(&mut self, counts: &Counts<B>, note: Place, count: u64)
        requires note { (note.table_id ≡ B.table) × (note.me.1 ≡ []) }
        requires count { count ≡ length note.me.0.seen }
        requires legal { IsLegal B.shape note.me.0.seen }
        ensures { Meets self.old (seated note.me.0.seen None) self.new }
    {
        counts.learn(&mut self.place, note);
        counts.meet(&mut self.place);
        if self.count < count {
            self.count = count;
        }
    }

    pub(crate) fn join(&mut self, counts: &Counts<B>, other: OrderSeat<B>)
        requires { other.number ≡ None }
        ensures { Meets self.old other self.new }
    {
        let OrderSeat {
            place,
            count,
            number: _,
            ordered: _,
            of: _,
        } = other;
        self.learn(counts, place, count);
    }

    pub(crate) fn into_place(self) -> Place
        ensures { (result.table_id ≡ B.table)
            × (result.me
            ≡ (view self.seen result.me.0.told (claims_of self.number self.seen), [])) }
    {
        let OrderSeat {
            place,
            count: _,
            number: _,
            ordered: _,
            of: _,
        } = self;
        place
    }

    /// Puts an entry after the list that was noted. It fails where the whole list is longer.
    pub(crate) fn append(
        &mut self,
        counts: &Counts<B>,
        note: Place,
        count: u64,
        entry: &Placed,
    ) -> bool
        requires note { (note.table_id ≡ B.table) × (note.me.1 ≡ [])
            × (count ≡ length note.me.0.seen) }
        requires entry { entry.now ≡ placed note.me.0.seen entry.now.entry }
        requires seat { self.old.number ≡ Some (seat_of entry.now) }
        requires may { MayFollow B.shape (own self.old) entry.now.entry }
        requires room { count + 1 < 2 ^ 64 }
        ensures { MatchBool result
            (Puts self.old note.me.0.seen entry.now.entry self.new) (SeesMore self.old self.new) }
    {
        counts.learn(&mut self.place, note);
        let found = counts.append(&mut self.place, count, entry);
        if found == count {
            self.count = count + 1;
            self.ordered += 1;
            true
        } else {
            self.count = found;
            false
        }
    }

    /// Draws the number that is due. It fails where another is due.
    pub(crate) fn draw(&mut self, counts: &Counts<B>, due: u64) -> bool
        requires number { self.old.number ≡ None }
        requires room { due + 1 < 2 ^ 64 }
        ensures { MatchBool result
            ((self.new ≡ seated self.old.seen (Some due)) × (own self.new ≡ []))
            (self.new ≡ self.old) }
    {
        let found = counts.draw(&mut self.place, due);
        if found == due {
            self.number = Some(due);
            true
        } else {
            false
        }
    }
}
