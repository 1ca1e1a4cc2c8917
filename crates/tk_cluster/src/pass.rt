ghost use Rattle.std.specs.Prelude.{◌≡◌, ◌<◌, ◌≤◌, [], ◌∷◌, length, None};
ghost use Rattle.std.specs.Prelude.{IfOk, IfErr, OnErr, OnOk};
ghost use Rattle.std.specs.Arc.{arc_value};
ghost use mathlib.Core.List.{IsPrefix};
ghost use Rattle.tk_shape.specs.Lengths.{turn_count};
ghost use Rattle.tk_order.specs.Seats.{seated, BeginOne};
ghost use Rattle.tk_frames.specs.Ranges.{IsWrite};
ghost use Rattle.tk_cluster.specs.Refusals.{IsWriteRefusal, SpellsWrite};
ghost use Rattle.tk_cluster.specs.Passes.{own, fresh, seat_for, reader_of, seat_of};
ghost use Rattle.tk_cluster.specs.Passes.{Wrote, WroteBytes, SeesMore, MeetsAt};
ghost use Rattle.tk_cluster.specs.Passes.{Pins, Knows, Learns, ReadsOnly};

use crate::{EpochSet, Told, WriteError};
use std::alloc::Global;
use std::marker::Model;
use std::sync::{Arc, Wait};
use tk_board::{Reader, Share};
use tk_frames::{Entry, WriteFrame, decode_write};
use tk_order::{Naming, Order, OrderSeat};
use tk_replica::Held;
use tk_shape::{Memory, Shape};

/// With what a client writes and reads. Seen as its client, the list of entries that it has seen,
/// and what it reads.
#[derive(Drop)]
pub struct Pass<B: Naming> {
    seat: OrderSeat<B>,
    reader: Reader<Arc<EpochSet>>,
    client: u32,
    /// The set with the greatest number that it pinned or was told of.
    held: Arc<EpochSet>,
    pinned: Vec<u32>,
}

impl<B: Naming> Model for Pass<B> {
    ghost use Rattle.std.specs.Arc.{arc_value};
    ghost use Rattle.tk_cluster.specs.Passes.{Passing, IsPass};

    ghost Value = { Passing };

    ghost view = { λ p. record {
      client = p.client;
      seen = p.seat.seen;
      reads = record {
        board = p.reader.board;
        shown = p.reader.list;
        known = (arc_value p.held).number;
        pinned = p.pinned.items;
      };
    } };

    ghost invariant = { λ p. IsPass B.shape p.seat p.client p.reader p.held };
}

impl<B: Naming> Pass<B> {
    /// The pass of a client that has seen nothing, and knows the first set.
    pub(crate) fn new(
        alloc: Global,
        seat: OrderSeat<B>,
        client: u32,
        reader: Reader<Arc<EpochSet>>,
        held: Arc<EpochSet>,
    ) -> Pass<B>
        requires seat { seat ≡ seat_for client }
        requires client { client < B.shape.clients }
        requires reader { reader.list ≡ arc_value held ∷ [] }
        requires first { (arc_value held).number ≡ 0 }
        ensures { result ≡ fresh reader.board (arc_value held) client }
    {
        Pass {
            seat,
            reader,
            client,
            held,
            pinned: Vec::new(alloc),
        }
    }

    /// Whose it is.
    pub fn client(&self) -> u32
        ensures is { result ≡ self.now.client }
        ensures inside { result < B.shape.clients }
    {
        self.client
    }

    /// How many writes it has ordered.
    pub fn ordered(&self) -> u32
        ensures { result ≡ length (own self.now) }
    {
        self.seat.ordered()
    }

    /// The greatest number that it has pinned or was told of.
    pub fn known(&self) -> u32
        ensures { result ≡ self.now.reads.known }
    {
        self.held.number()
    }

    /// Orders the write of its client that a frame spells.
    pub(crate) fn write<R: Wait>(
        &mut self,
        rt: &R,
        shape: &Shape,
        order: &Order<B>,
        frame: &[u8],
    ) -> Result<u64, WriteError>
        requires shape { shape.now ≡ B.shape }
        requires room { length (own self.old) < turn_count B.shape }
        ensures last { IfOk result (λ p. p ≡ length self.new.seen) }
        ensures wrote { OnOk result (WroteBytes B.shape frame.now self.old self.new) }
        ensures refused { IfErr result (IsWriteRefusal B.shape self.old.client frame.now) }
        ensures err { OnErr result (SeesMore self.old self.new) }
    {
        let alloc = *self.pinned.allocator();
        let write = self.checked(alloc, shape, frame)?;
        Ok(self.order(rt, order, write)?)
    }

    /// The write that a frame spells, if it is of the pass's client.
    fn checked(&self, alloc: Global, shape: &Shape, frame: &[u8]) -> Result<WriteFrame, WriteError>
        requires { shape.now ≡ B.shape }
        ensures spells { IfOk result (SpellsWrite B.shape frame.now) }
        ensures client { IfOk result (λ w. w.client ≡ self.now.client) }
        ensures refused { IfErr result (IsWriteRefusal B.shape self.now.client frame.now) }
    {
        let write = decode_write(alloc, shape, frame)?;
        if write.client != self.client {
            return Err(WriteError::Client {
                want: self.client,
                got: write.client,
            });
        }
        Ok(write)
    }

    /// Orders a write.
    fn order<R: Wait>(&mut self, rt: &R, order: &Order<B>, write: WriteFrame) -> Result<u64, Memory>
        requires in_range { IsWrite B.shape write }
        requires client { write.client ≡ self.old.client }
        requires room { length (own self.old) < turn_count B.shape }
        ensures last { IfOk result (λ p. p ≡ length self.new.seen) }
        ensures wrote { OnOk result (Wrote self.old write self.new) }
        ensures err { OnErr result (SeesMore self.old self.new) }
    {
        order.append(rt, &mut self.seat, &Entry::Write(write))
    }

    /// A shown set, not before any that it pinned or was told of, with a number of at most `most`.
    pub(crate) fn pin(&mut self, most: u32) -> Result<Arc<EpochSet>, Memory>
        requires { self.old.reads.known ≤ most }
        ensures ok { IfOk result
            (λ s. ReadsOnly (λ a b. Pins a most (arc_value s) b) self.old self.new) }
        ensures err { OnErr result (ReadsOnly Knows self.old self.new) }
    {
        self.pinned.reserve(1)?;
        let Ok(newest) = self.reader.look() else {
            return Err(Memory);
        };
        self.reader.fits();
        let number = newest.number();
        if number <= most {
            let answer = Arc::try_clone(&newest)?;
            self.held = newest;
            self.pinned.push_reserved(number);
            return Ok(answer);
        }
        let answer = Arc::try_clone(&self.held)?;
        self.pinned.push_reserved(self.held.number());
        Ok(answer)
    }

    /// Takes in what the publisher told.
    pub(crate) fn learn(&mut self, told: &mut Told) -> Result<(), Memory>
        requires { told.old.board ≡ self.old.reads.board }
        ensures told { told.new ≡ told.old }
        ensures ok { OnOk result (ReadsOnly (λ a b. Learns a told.old b) self.old self.new) }
        ensures err { OnErr result (self.new ≡ self.old) }
    {
        let newest = Arc::try_clone(told.value())?;
        told.fits();
        let Ok(()) = self.reader.learn(told) else {
            return Err(Memory);
        };
        if newest.number() > self.held.number() {
            self.held = newest;
        }
        Ok(())
    }

    /// A note of what it has seen.
    pub(crate) fn note(&mut self, order: &Order<B>) -> OrderSeat<B>
        ensures same { self.new ≡ self.old }
        ensures new { result ≡ seated self.old.seen None }
    {
        order.split(&mut self.seat)
    }

    /// Takes in a note of a list that begins with all that it has seen.
    pub(crate) fn take_in(&mut self, order: &Order<B>, note: OrderSeat<B>)
        requires number { note.number ≡ None }
        requires more { IsPrefix self.old.seen note.seen }
        ensures { MeetsAt note.seen self.old self.new }
    {
        order.join(&mut self.seat, note);
    }

    /// What was applied to a held replica and what it has seen begin one list.
    pub(crate) fn agree(&mut self, order: &Order<B>, held: &mut Held<'_, B>)
        ensures same { self.new ≡ self.old }
        ensures held { held.new ≡ held.old }
        ensures list { BeginOne held.old self.old.seen }
    {
        held.agree(order, &mut self.seat);
    }

    /// Its seat, its reader, its client and the numbers that it pinned.
    pub(crate) fn into_parts(self) -> (OrderSeat<B>, Reader<Arc<EpochSet>>, Vec<u32>)
        ensures seat { result.0 ≡ seat_of self }
        ensures reader { result.1 ≡ reader_of self }
        ensures pinned { result.2.items ≡ self.reads.pinned }
    {
        let Pass {
            seat,
            reader,
            client: _,
            held: _held,
            pinned,
        } = self;
        (seat, reader, pinned)
    }
}
