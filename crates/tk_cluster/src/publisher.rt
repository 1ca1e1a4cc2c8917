ghost use Rattle.std.specs.Prelude.{◌≡◌, ◌+◌, ◌≤◌, [], ◌∷◌, length, Some, None};
ghost use Rattle.std.specs.Prelude.{IfOk, OnErr, OnOk};
ghost use Rattle.std.specs.Arc.{arc_value};
ghost use mathlib.Core.List.{IsPrefix};
ghost use Rattle.tk_order.specs.Legality.{IsLegal};
ghost use Rattle.tk_order.specs.Seats.{seated};
ghost use Rattle.tk_cluster.specs.Sets.{AreShown, StandsAtMark};
ghost use Rattle.tk_cluster.specs.Tellings.{marks, told_of, Grows, Published, Withheld};

use crate::{Cluster, EpochSet, Told};
use std::alloc::AllocGlobal;
use std::marker::Model;
use std::sync::{Arc, Wait};
use std::thread::Threads;
use tk_board::Publisher as Board;
use tk_frames::Entry;
use tk_order::{Naming, Order, OrderSeat};
use tk_shape::Memory;

/// Orders the marks, and shows the sets of their epochs. Seen as the list of entries that it has
/// seen, its board and the sets that it has shown. It isn't `Drop`: its cluster's `close` ends it,
/// or its own `give_up`.
pub struct Publisher<B: Naming> {
    seat: OrderSeat<B>,
    board: Board<Arc<EpochSet>>,
    /// The position of the last mark; 0 before the first.
    marked: u64,
    /// How many marks it has ordered.
    ordered: u32,
    /// How many epochs it has shown.
    shown: u32,
}

impl<B: Naming> Model for Publisher<B> {
    ghost use Rattle.tk_cluster.specs.Tellings.{Telling, IsPublisher};

    ghost Value = { Telling };

    ghost view = { λ p. record {
      seen = p.seat.seen;
      board = p.board.board;
      shown = p.board.list;
    } };

    ghost invariant = { λ p. IsPublisher B.shape p.seat p.board p.marked p.ordered p.shown };
}

impl<B: Naming> Publisher<B> {
    /// A publisher that has seen nothing, and shown the first set.
    pub(crate) fn new(seat: OrderSeat<B>, board: Board<Arc<EpochSet>>) -> Publisher<B>
        requires seat { seat ≡ seated [] (Some 0) }
        requires first { (set : _) × (board.list ≡ set ∷ []) × StandsAtMark B.shape [] 0 set }
        ensures { (result.seen ≡ []) × (told_of result ≡ board) }
    {
        Publisher {
            seat,
            board,
            marked: 0,
            ordered: 0,
            shown: 0,
        }
    }

    /// How many epochs it has shown, epoch 0 not counted.
    pub fn shown(&self) -> u32
        ensures { length self.now.shown ≡ result + 1 }
    {
        self.shown
    }

    /// Each shown set stands for the writes before its mark in what was seen, which may be an order.
    pub fn stands(&self)
        ensures shows { AreShown B.shape self.now.shown self.now.seen }
        ensures legal { IsLegal B.shape self.now.seen }
    {
        self.seat.legal();
    }

    /// One mark more is ordered, if none is left of a call before, and the set of its epoch is
    /// shown.
    pub(crate) fn publish<R: Wait + AllocGlobal>(
        &mut self,
        rt: &R,
        cluster: &Cluster<B>,
    ) -> Result<Told, Memory>
        requires { length self.old.shown ≤ B.shape.phases }
        ensures published { OnOk result (Published B.shape self.old self.new) }
        ensures told { IfOk result (λ t. t ≡ told_of self.new) }
        ensures err { OnErr result (Withheld self.old self.new) }
    {
        self.mark(rt, &cluster.order)?;
        let set = self.due(rt, cluster)?;
        self.show(rt, cluster, set)
    }

    /// The mark of the next set stands in the order.
    fn mark<R: Wait>(&mut self, rt: &R, order: &Order<B>) -> Result<(), Memory>
        requires { length self.old.shown ≤ B.shape.phases }
        ensures grows { Grows self.old self.new }
        ensures ok { OnOk result (length (marks self.new) ≡ length self.old.shown) }
        ensures err { OnErr result (marks self.new ≡ marks self.old) }
    {
        if self.ordered > self.shown {
            return Ok(());
        }
        let number = self.shown + 1;
        let position = order.append(rt, &mut self.seat, &Entry::Mark(number));
        self.seat.legal();
        self.marked = position?;
        self.ordered = number;
        Ok(())
    }

    /// The set of the mark that stands in the order.
    fn due<R: Wait + AllocGlobal>(
        &mut self,
        rt: &R,
        cluster: &Cluster<B>,
    ) -> Result<Arc<EpochSet>, Memory>
        requires { length (marks self.old) ≡ length self.old.shown }
        ensures same { self.new ≡ self.old }
        ensures stands { IfOk result
            (λ s. StandsAtMark B.shape self.old.seen (length self.old.shown) (arc_value s)) }
    {
        cluster.set(rt, &mut self.seat, self.ordered, self.marked)
    }

    /// Shows the set of the mark that stands in the order.
    fn show<R: Wait + AllocGlobal>(
        &mut self,
        rt: &R,
        cluster: &Cluster<B>,
        set: Arc<EpochSet>,
    ) -> Result<Told, Memory>
        requires room { length self.old.shown ≤ B.shape.phases }
        requires due { length (marks self.old) ≡ length self.old.shown }
        requires stands { StandsAtMark B.shape self.old.seen (length self.old.shown) (arc_value set) }
        ensures published { OnOk result (Published B.shape self.old self.new) }
        ensures told { IfOk result (λ t. t ≡ told_of self.new) }
        ensures err { OnErr result (self.new ≡ self.old) }
    {
        let Ok(told) = self.board.show(rt, set) else {
            return Err(Memory);
        };
        cluster.release(rt, self.shown);
        self.shown = self.ordered;
        Ok(told)
    }

    /// A note of what it has seen.
    pub(crate) fn note(&mut self, order: &Order<B>) -> OrderSeat<B>
        ensures same { self.new ≡ self.old }
        ensures new { result ≡ seated self.old.seen None }
    {
        order.split(&mut self.seat)
    }

    /// Takes in a note.
    pub(crate) fn take_in(&mut self, order: &Order<B>, note: OrderSeat<B>)
        requires { note.number ≡ None }
        ensures grows { Grows self.old self.new }
        ensures marks { marks self.new ≡ marks self.old }
        ensures begins { IsPrefix note.seen self.new.seen }
    {
        order.join(&mut self.seat, note);
        self.seat.legal();
    }

    /// Ends it where a run is given up, without its cluster.
    pub fn give_up<R: Wait + AllocGlobal>(self, rt: &R) {
        let (_seat, board) = self.into_parts();
        let _lost = board.close(rt, Vec::new(rt.alloc()));
    }

    /// Its seat and its board.
    pub(crate) fn into_parts(self) -> (OrderSeat<B>, Board<Arc<EpochSet>>)
        ensures seat { result.0 ≡ seated self.seen (Some 0) }
        ensures board { result.1 ≡ told_of self }
        ensures shows { AreShown B.shape self.shown self.seen }
    {
        let Publisher {
            seat,
            board,
            marked: _,
            ordered: _,
            shown: _,
        } = self;
        (seat, board)
    }
}

impl<B: Naming + Send + Sync> Publisher<B> {
    /// What `publish` does, where so many threads make the epochs of several servers at once.
    pub(crate) fn publish_with<R: Threads + Wait + Sync + AllocGlobal>(
        &mut self,
        rt: &R,
        cluster: &Cluster<B>,
        workers: u32,
    ) -> Result<Told, Memory>
        requires room { length self.old.shown ≤ B.shape.phases }
        requires workers { 1 ≤ workers }
        ensures published { OnOk result (Published B.shape self.old self.new) }
        ensures told { IfOk result (λ t. t ≡ told_of self.new) }
        ensures err { OnErr result (Withheld self.old self.new) }
    {
        self.mark(rt, &cluster.order)?;
        let set = self.due_with(rt, cluster, workers)?;
        self.show(rt, cluster, set)
    }

    /// The set of the mark that stands in the order, made by so many threads.
    fn due_with<R: Threads + Wait + Sync + AllocGlobal>(
        &mut self,
        rt: &R,
        cluster: &Cluster<B>,
        workers: u32,
    ) -> Result<Arc<EpochSet>, Memory>
        requires due { length (marks self.old) ≡ length self.old.shown }
        requires workers { 1 ≤ workers }
        ensures same { self.new ≡ self.old }
        ensures stands { IfOk result
            (λ s. StandsAtMark B.shape self.old.seen (length self.old.shown) (arc_value s)) }
    {
        cluster.set_with(rt, &mut self.seat, self.ordered, self.marked, workers)
    }
}
