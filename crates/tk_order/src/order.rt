ghost use Rattle.std.specs.Prelude.{◌≡◌, ◌+◌, ◌-◌, ◌≤◌, length, map, take, drop};
ghost use Rattle.std.specs.Prelude.{Some, None, IfOk, OnErr};
ghost use Rattle.std.specs.Arc.{arc_value};
ghost use Rattle.tk_order.specs.Legality.{number_of, MayFollow, IsLegal};
ghost use Rattle.tk_order.specs.Seats.{own, seated, opened, BeginOne, IsWhole};
ghost use Rattle.tk_order.specs.Seats.{SeesMore, Ordered, Meets};

use crate::blank::Blank;
use crate::counts::Counts;
use crate::journal::Journal;
use crate::rule::Naming;
use crate::seat::OrderSeat;
use crate::stored::Stored;
use std::alloc::Global;
use std::sync::{Arc, Mutex, Wait};
use tk_frames::{Entry, Placed};
use tk_shape::Memory;

/// The order that threads share.
#[derive(Drop)]
pub struct Order<B: Naming> {
    counts: Counts<B>,
    stored: Mutex<Stored<B>>,
}

impl<B: Naming> Order<B> {
    /// An empty order of the blank's shape, with its seats by number. Where memory runs out the
    /// blank is lost.
    pub fn open<R: Wait>(
        rt: &R,
        alloc: Global,
        blank: Blank,
    ) -> Result<(Order<B>, Vec<OrderSeat<B>>), Memory>
        requires table { blank.table ≡ B.table }
        requires shape { blank.shape ≡ B.shape }
        ensures { IfOk result (λ r. r.1.items ≡ opened blank.seats) }
    {
        let count = blank.seats();
        let (counts, mut place) = blank.named::<B>();
        let stored = Stored::new(alloc, counts.note(&mut place));
        let mut seats = Vec::with_capacity(alloc, count as usize)?;
        for number in 0..count {
            let note = counts.note(&mut place);
            seats.push(OrderSeat::numbered(rt, &counts, note, u64::from(number)))?;
        }
        let order = Order {
            counts,
            stored: Mutex::new(stored),
        };
        Ok((order, seats))
    }

    /// The entry gets the next position, which is the answer. Where memory runs out nothing is
    /// ordered.
    #[tactic(auto, using(crate::proofs::Growing::sees_self, crate::proofs::Growing::sees_on, crate::proofs::Growing::puts_on, crate::proofs::Growing::may_still))]
    pub fn append<R: Wait>(
        &self,
        rt: &R,
        seat: &mut OrderSeat<B>,
        entry: &Entry,
    ) -> Result<u64, Memory>
        requires seat { seat.old.number ≡ Some (number_of entry.now) }
        requires may { MayFollow B.shape (own seat.old) entry.now }
        ensures last { IfOk result (λ p. p ≡ length seat.new.seen) }
        ensures ordered { IfOk result (λ p. Ordered seat.old entry.now seat.new) }
        ensures err { OnErr result (SeesMore seat.old seat.new) }
    {
        for _ in rt.forever() {
            let mut stored = self.stored.lock(rt);
            if let Some(position) = stored.append(&self.counts, seat, entry)? {
                return Ok(position);
            }
        }
        unreachable!()
    }

    /// The length of the list that the seat knows then, with all that others had ordered where it
    /// looked. It waits for nobody.
    pub fn look(&self, seat: &mut OrderSeat<B>) -> u64
        ensures now { result ≡ length seat.new.seen }
        ensures sees { SeesMore seat.old seat.new }
    {
        seat.look(&self.counts)
    }

    /// The entries from one position to another of the seat's list.
    pub fn fetch<R: Wait>(
        &self,
        rt: &R,
        seat: &mut OrderSeat<B>,
        from: u64,
        to: u64,
    ) -> Result<Vec<Arc<Placed>>, Memory>
        requires from { (1 ≤ from) × (from ≤ to + 1) }
        requires to { to ≤ length seat.old.seen }
        ensures sees { SeesMore seat.old seat.new }
        ensures found { IfOk result
            (λ v. map (λ a. arc_value a) v.items ≡ drop (from - 1) (take to seat.old.seen)) }
    {
        for _ in rt.forever() {
            let mut stored = self.stored.lock(rt);
            if let Some(entries) = stored.fetch(&self.counts, seat, from, to)? {
                return Ok(entries);
            }
        }
        unreachable!()
    }

    /// A seat without a number that has seen as much. It takes no memory.
    pub fn split(&self, seat: &mut OrderSeat<B>) -> OrderSeat<B>
        ensures same { seat.new ≡ seat.old }
        ensures new { result ≡ seated seat.old.seen None }
    {
        seat.split(&self.counts)
    }

    /// What any two seats have seen begins one list.
    pub fn agree(&self, one: &mut OrderSeat<B>, two: &mut OrderSeat<B>)
        ensures one { one.new ≡ one.old }
        ensures two { two.new ≡ two.old }
        ensures list { BeginOne one.old.seen two.old.seen }
    {
        let mut both = self.split(one);
        let other = self.split(two);
        self.join(&mut both, other);
    }

    /// The seat has seen what either had: of any two seats' lists one begins the other.
    pub fn join(&self, seat: &mut OrderSeat<B>, other: OrderSeat<B>)
        requires { other.number ≡ None }
        ensures { Meets seat.old other seat.new }
    {
        seat.join(&self.counts, other)
    }

    /// The whole list. It begins with what each of these seats had seen, and has under a seat's
    /// number just the entries that this seat ordered. Not all numbers need to be handed in: under
    /// one that isn't, there stands what its seat ordered, of which nothing is said here.
    pub fn close<R: Wait>(self, rt: &R, seats: Vec<OrderSeat<B>>) -> Journal
        ensures whole { IsWhole seats.items result }
        ensures legal { IsLegal B.shape result }
    {
        let Order { counts, stored } = self;
        stored.into_inner().close(rt, &counts, seats)
    }
}
