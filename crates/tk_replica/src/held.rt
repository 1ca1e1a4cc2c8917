ghost use Rattle.std.specs.Prelude.{◌≡◌};
ghost use Rattle.tk_order.specs.Seats.{BeginOne};
ghost use Rattle.tk_replica.specs.Replica.{StandsFor};

use crate::ReplicaState;
use crate::followed::Followed;
use std::marker::Model;
use std::sync::MutexGuard;
use tk_order::{Naming, Order, OrderSeat};

/// A replica whose lock is held, for as long as this lives. Seen as the entries that were applied.
#[derive(Drop)]
pub struct Held<'a, B: Naming> {
    pub(crate) guard: MutexGuard<'a, Followed<B>>,
}

impl<'a, B: Naming> Model for Held<'a, B> {
    ghost use Rattle.std.specs.Prelude.{List};
    ghost use Rattle.std.specs.Sync.Mutex.{mutex_guard_value};
    ghost use Rattle.tk_frames.specs.declared.entry.Placed.{Placed};
    ghost use Rattle.tk_replica.specs.Following.{applied_in};

    ghost Value = { List Placed };

    ghost view = { λ h. applied_in (mutex_guard_value h.guard) };
}

impl<B: Naming> Held<'_, B> {
    /// The state that lies behind the lock.
    pub fn state(&self) -> &ReplicaState
        ensures { StandsFor B.shape self.now result.now }
    {
        self.guard.state()
    }

    /// What was applied is the first entries of the order: it and what any seat has seen begin one
    /// list.
    pub fn agree(&mut self, order: &Order<B>, seat: &mut OrderSeat<B>)
        ensures same { self.new ≡ self.old }
        ensures seat { seat.new ≡ seat.old }
        ensures list { BeginOne self.old seat.old.seen }
    {
        self.guard.agree(order, seat);
    }
}
