//! Positions in one run.
ghost use Rattle.std.specs.Prelude.{◌≡◌, ◌+◌, ◌<◌, ◌≤◌, ◌++◌, ◌∷◌, [], length, take, drop, IfOk};
ghost use Rattle.std.specs.Prelude.{vec_len, vec_capacity};

use crate::Memory;
use std::alloc::Global;
use std::marker::Model;

/// Positions that come at the end and go at the front. They lie in one run, so that any few of them
/// can be lent as a slice; the run moves down when it reaches the end of its memory.
#[derive(Debug, Drop)]
pub(crate) struct Queue {
    items: Vec<u32>,
    start: usize,
    room: usize,
    most: usize,
}

impl Model for Queue {
    ghost use Rattle.std.specs.Prelude.{drop, vec_len, vec_capacity};
    ghost use Rattle.tk_bloom.specs.Queues.{Queued, IsQueue};

    ghost Value = { Queued };

    ghost view = { λ q. record { room = q.room; positions = drop q.start q.items.items } };

    ghost invariant = { λ q. IsQueue q.start q.room q.most (vec_len q.items) (vec_capacity q.items) };
}

impl Queue {
    /// No positions, with room for so many. The run has as many more, so that a full queue moves down
    /// once in so many pushes: each position is moved about once.
    pub(crate) fn open(alloc: Global, room: u32) -> Result<Queue, Memory>
        ensures { IfOk result (λ q. q ≡ record { room = room; positions = [] }) }
    {
        let room = room as usize;
        let most = 2 * room + 1;
        Ok(Queue {
            items: Vec::with_capacity(alloc, most)?,
            start: 0,
            room,
            most,
        })
    }

    /// How many there are.
    pub(crate) fn len(&self) -> usize
        ensures { result ≡ length self.now.positions }
    {
        self.items.len() - self.start
    }

    /// One more comes. Memory is there already.
    pub(crate) fn push_back(&mut self, position: u32)
        requires { length self.old.positions < self.old.room }
        ensures room { self.new.room ≡ self.old.room }
        ensures positions { self.new.positions ≡ self.old.positions ++ position ∷ [] }
    {
        if self.items.len() < self.most {
            self.items.push_reserved(position);
            return;
        }
        move_down(&mut self.items, self.start);
        self.start = 0;
        self.items.push_reserved(position);
    }

    /// The first goes, and is given back.
    pub(crate) fn pop_front(&mut self) -> u32
        requires { 0 < length self.old.positions }
        ensures room { self.new.room ≡ self.old.room }
        ensures positions { self.old.positions ≡ result ∷ self.new.positions }
    {
        let at = self.start;
        self.start = at + 1;
        self.items[at]
    }

    /// `count` of them, from number `from` on.
    pub(crate) fn part(&self, from: usize, count: usize) -> &[u32]
        requires { from + count ≤ length self.now.positions }
        ensures { result.now ≡ take count (drop from self.now.positions) }
    {
        let from = self.start + from;
        &self.items[from..from + count]
    }
}

/// Drops what lies before `start`; the rest goes to the front.
fn move_down(items: &mut Vec<u32>, start: usize)
    requires { start ≤ vec_len items.old }
    ensures items { items.new.items ≡ drop start items.old.items }
    ensures capacity { vec_capacity items.new ≡ vec_capacity items.old }
{
    let len = items.len() - start;
    items.copy_within(start.., 0);
    items.truncate(len);
}
