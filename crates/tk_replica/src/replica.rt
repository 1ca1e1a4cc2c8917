ghost use Rattle.std.specs.Prelude.{◌≡◌, ◌≤◌, length, None, IfOk};
ghost use Rattle.std.specs.Arc.{arc_value};
ghost use Rattle.tk_replica.specs.Following.{IsEpochAt};

use crate::followed::Followed;
use crate::{Epoch, Held};
use std::alloc::Global;
use std::sync::{Arc, Mutex, Wait};
use tk_order::{Naming, Order, OrderSeat};
use tk_shape::{Memory, Shape};

/// A state behind a lock, which follows an order. Whenever the lock is free, the state stands for
/// the first entries of that order, as many as were applied.
#[derive(Drop)]
pub struct Replica<B: Naming> {
    followed: Mutex<Followed<B>>,
}

impl<B: Naming> Replica<B> {
    /// A replica that has applied nothing. Its own seat has seen as much as the one given.
    pub fn open(
        alloc: Global,
        shape: &Shape,
        order: &Order<B>,
        seat: &mut OrderSeat<B>,
    ) -> Result<Replica<B>, Memory>
        requires { shape.now ≡ B.shape }
        ensures { seat.new ≡ seat.old }
    {
        let own = order.split(seat);
        let followed = Followed::new(alloc, shape, own)?;
        Ok(Replica {
            followed: Mutex::new(followed),
        })
    }

    /// Applies at least so many entries. The answer is the epoch of the last mark among the first
    /// so many of the seat's list; it is made again where it was let go. Where memory runs out,
    /// some entries may be applied.
    pub fn advance<R: Wait>(
        &self,
        rt: &R,
        order: &Order<B>,
        seat: &mut OrderSeat<B>,
        upto: u64,
    ) -> Result<Arc<Epoch>, Memory>
        requires { upto ≤ length seat.old.seen }
        ensures seat { seat.new ≡ seat.old }
        ensures epoch { IfOk result
            (λ epoch. IsEpochAt B.shape seat.old.seen upto (arc_value epoch)) }
    {
        self.followed.lock(rt).advance(rt, order, seat, upto)
    }

    /// Takes the lock, and lets it go with the answer.
    pub fn hold<R: Wait>(&self, rt: &R) -> Held<'_, B> {
        Held {
            guard: self.followed.lock(rt),
        }
    }

    /// Lets the epochs below the number go, or below the last, if they are more than so far.
    pub fn release<R: Wait>(&self, rt: &R, e: u32) {
        self.followed.lock(rt).release(e);
    }

    /// The replica's own seat.
    pub fn close(self) -> OrderSeat<B>
        ensures { result.number ≡ None }
    {
        let Replica { followed } = self;
        followed.into_inner().into_seat()
    }
}
