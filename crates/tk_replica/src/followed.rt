ghost use Rattle.std.specs.Prelude.{◌≡◌, ◌+◌, ◌<◌, ◌≤◌, length, drop, map, slice_get, Some, None};
ghost use Rattle.std.specs.Prelude.{IfOk, OnOk, OnErr, MatchOption};
ghost use Rattle.std.specs.Arc.{arc_value};
ghost use mathlib.Core.List.{IsPrefix};
ghost use Rattle.tk_frames.specs.InOrder.{IsOrder};
ghost use Rattle.tk_order.specs.Seats.{BeginOne};
ghost use Rattle.tk_replica.specs.Following.{applied_in, floor_after, marks_among, IsEpochAt};
ghost use Rattle.tk_replica.specs.Replica.{StandsFor};

use crate::{Epoch, ReplicaState};
use std::alloc::Global;
use std::marker::Model;
use std::sync::{Arc, Wait};
use tk_frames::Placed;
use tk_order::{Naming, Order, OrderSeat};
use tk_shape::{Memory, Shape};

/// What lies under a replica's lock: a state, with a seat that has seen what the state stands for.
/// Seen as the state and the seat's list.
#[derive(Drop)]
pub(crate) struct Followed<B: Naming> {
    alloc: Global,
    state: ReplicaState,
    seat: OrderSeat<B>,
}

impl<B: Naming> Model for Followed<B> {
    ghost use Rattle.tk_replica.specs.Following.{Following, IsFollowing, following};

    ghost Value = { Following };

    ghost view = { λ f. following f.state f.seat.seen };

    ghost invariant = { λ f. IsFollowing B.shape f.state f.seat };
}

impl<B: Naming> Followed<B> {
    /// The state before any entry.
    pub(crate) fn new(
        alloc: Global,
        shape: &Shape,
        seat: OrderSeat<B>,
    ) -> Result<Followed<B>, Memory>
        requires shape { shape.now ≡ B.shape }
        requires seat { seat.number ≡ None }
        ensures list { IfOk result (λ f. f.list ≡ seat.seen) }
        ensures floor { IfOk result (λ f. f.state.floor ≡ 0) }
    {
        let state = ReplicaState::open(alloc, shape)?;
        Ok(Followed { alloc, state, seat })
    }

    /// The state, which stands for the entries that were applied.
    pub(crate) fn state(&self) -> &ReplicaState
        ensures same { result.now ≡ self.now.state }
        ensures stands { StandsFor B.shape (applied_in self.now) result.now }
    {
        &self.state
    }

    /// Its seat.
    pub(crate) fn into_seat(self) -> OrderSeat<B>
        ensures number { result.number ≡ None }
        ensures seen { result.seen ≡ self.list }
    {
        let Followed {
            alloc: _,
            state: _state,
            seat,
        } = self;
        seat
    }

    /// What its seat and another have seen begins one list.
    pub(crate) fn agree(&mut self, order: &Order<B>, seat: &mut OrderSeat<B>)
        ensures same { self.new ≡ self.old }
        ensures seat { seat.new ≡ seat.old }
        ensures list { BeginOne self.old.list seat.old.seen }
    {
        order.agree(&mut self.seat, seat);
    }

    /// The epoch of the last mark among the first entries of the seat's list. At least these are
    /// applied then.
    pub(crate) fn advance<R: Wait>(
        &mut self,
        rt: &R,
        order: &Order<B>,
        seat: &mut OrderSeat<B>,
        upto: u64,
    ) -> Result<Arc<Epoch>, Memory>
        requires { upto ≤ length seat.old.seen }
        ensures seat { seat.new ≡ seat.old }
        ensures applied { OnOk result (upto ≤ self.new.state.applied) }
        ensures floor { self.new.state.floor ≡ self.old.state.floor }
        ensures epoch { IfOk result
            (λ epoch. IsEpochAt B.shape seat.old.seen upto (arc_value epoch)) }
    {
        self.meet(order, seat);
        self.catch_up(rt, order, upto)?;
        self.in_order();
        self.epoch(rt, order, upto)
    }

    /// What its seat has seen is an order.
    fn in_order(&self)
        ensures { IsOrder B.shape self.now.list }
    {
        self.seat.legal();
    }

    /// Its seat sees what another has seen.
    fn meet(&mut self, order: &Order<B>, seat: &mut OrderSeat<B>)
        ensures state { self.new.state ≡ self.old.state }
        ensures seat { seat.new ≡ seat.old }
        ensures sees { IsPrefix seat.old.seen self.new.list }
    {
        let other = order.split(seat);
        order.join(&mut self.seat, other);
    }

    /// Applies the entries that are missing to so many. Where memory runs out, some of them.
    fn catch_up<R: Wait>(&mut self, rt: &R, order: &Order<B>, upto: u64) -> Result<(), Memory>
        requires { upto ≤ length self.old.list }
        ensures sees { IsPrefix self.old.list self.new.list }
        ensures floor { self.new.state.floor ≡ self.old.state.floor }
        ensures applied { OnOk result (upto ≤ self.new.state.applied) }
    {
        let from = self.state.applied();
        if upto <= from {
            return Ok(());
        }
        let entries = order.fetch(rt, &mut self.seat, from + 1, upto)?;
        self.apply_all(entries.as_slice())
    }

    /// Applies the next entries of its seat's list, or the first of them.
    fn apply_all(&mut self, entries: &[Arc<Placed>]) -> Result<(), Memory>
        requires { IsPrefix (map (λ a. arc_value a) entries.now)
            (drop self.old.state.applied self.old.list) }
        ensures list { self.new.list ≡ self.old.list }
        ensures floor { self.new.state.floor ≡ self.old.state.floor }
        ensures applied { OnOk result
            (self.new.state.applied ≡ self.old.state.applied + length entries.now) }
    {
        for placed in entries {
            self.apply(placed)?;
        }
        Ok(())
    }

    /// Applies the next entry of its seat's list.
    fn apply(&mut self, placed: &Placed) -> Result<(), Memory>
        requires { slice_get self.old.list self.old.state.applied ≡ Some placed.now }
        ensures list { self.new.list ≡ self.old.list }
        ensures floor { self.new.state.floor ≡ self.old.state.floor }
        ensures applied { OnOk result (self.new.state.applied ≡ self.old.state.applied + 1) }
        ensures memory { OnErr result (self.new ≡ self.old) }
    {
        self.seat.legal();
        self.state.apply(self.alloc, placed)
    }

    /// The epoch of the last mark among the first entries. Where it was let go, a new state takes
    /// these entries and makes it again.
    fn epoch<R: Wait>(&mut self, rt: &R, order: &Order<B>, upto: u64) -> Result<Arc<Epoch>, Memory>
        requires { upto ≤ self.old.state.applied }
        ensures same { self.new ≡ self.old }
        ensures epoch { IfOk result
            (λ epoch. IsEpochAt B.shape self.old.list upto (arc_value epoch)) }
    {
        if let Some(epoch) = self.kept(upto)? {
            return Ok(epoch);
        }
        let seat = order.split(&mut self.seat);
        let mut again = Followed::new(self.alloc, self.state.shape(), seat)?;
        again.catch_up(rt, order, upto)?;
        again.in_order();
        match again.kept(upto)? {
            Some(epoch) => Ok(epoch),
            None => unreachable!(),
        }
    }

    /// The epoch of the last mark among the first entries, or None where it was let go.
    fn kept(&self, upto: u64) -> Result<Option<Arc<Epoch>>, Memory>
        requires { upto ≤ self.now.state.applied }
        ensures { IfOk result (λ o. MatchOption o
            (marks_among upto self.now.list < self.now.state.floor)
            (λ epoch. IsEpochAt B.shape self.now.list upto (arc_value epoch))) }
    {
        self.seat.legal();
        self.state.latest(upto)
    }

    /// Lets the epochs below the number go, or below the last, if they are more than so far.
    pub(crate) fn release(&mut self, e: u32)
        ensures list { self.new.list ≡ self.old.list }
        ensures applied { self.new.state.applied ≡ self.old.state.applied }
        ensures floor { self.new.state.floor ≡ floor_after e self.old.state }
    {
        let number = e.min(self.state.last());
        if number > self.state.floor() {
            self.state.release(number);
        }
    }
}
