ghost use Rattle.std.specs.Prelude.{◌≡◌, ◌+◌, ◌<◌, ◌≤◌, ◌++◌, [], ◌∷◌, length, take, drop};
ghost use Rattle.std.specs.Prelude.{IfOk, All};
ghost use Rattle.tk_bloom.specs.Filters.{marks_of};
ghost use Rattle.tk_bloom.specs.Windows.{window};

use crate::Memory;
use crate::marks::Marks;
use crate::queue::Queue;
use std::alloc::Global;
use std::marker::Model;

/// Positions in the order in which they came, and how often each of them occurs.
#[derive(Debug, Drop)]
pub(crate) struct Tally {
    queue: Queue,
    counts: Vec<u32>,
}

impl Model for Tally {
    ghost use Rattle.std.specs.Prelude.{length};
    ghost use Rattle.tk_bloom.specs.Counts.{Counted, AreCounts};

    ghost Value = { Counted };

    ghost view = { λ t. record {
      bits = length t.counts.items;
      room = t.queue.room;
      positions = t.queue.positions;
    } };

    ghost invariant = { λ t. AreCounts t.counts.items t.queue.positions t.queue.room };
}

impl Tally {
    /// No positions, with room for so many below `bits`.
    pub(crate) fn open(alloc: Global, bits: u32, room: u32) -> Result<Tally, Memory>
        ensures { IfOk result (λ t. t ≡ record { bits = bits; room = room; positions = [] }) }
    {
        Ok(Tally {
            queue: Queue::open(alloc, room)?,
            counts: vec![in alloc; 0; bits as usize]?,
        })
    }

    /// How many positions there are.
    pub(crate) fn len(&self) -> usize
        ensures { result ≡ length self.now.positions }
    {
        self.queue.len()
    }

    /// Puts a position after the others.
    pub(crate) fn push_back(&mut self, hit: u32)
        requires room { length self.old.positions < self.old.room }
        requires in_range { hit < self.old.bits }
        ensures { self.new ≡ record self.old { positions = self.old.positions ++ hit ∷ [] } }
    {
        self.queue.push_back(hit);
        self.counts[hit as usize] += 1;
    }

    /// Takes the first position away.
    pub(crate) fn pop_front(&mut self)
        requires { 0 < length self.old.positions }
        ensures { self.new ≡ record self.old { positions = drop 1 self.old.positions } }
    {
        let hit = self.queue.pop_front();
        self.counts[hit as usize] -= 1;
    }

    /// Puts positions after the others.
    pub(crate) fn append(&mut self, hits: &[u32])
        requires room { length self.old.positions + length hits.now ≤ self.old.room }
        requires in_range { All (λ h. h < self.old.bits) hits.now }
        ensures { self.new ≡ record self.old { positions = self.old.positions ++ hits.now } }
    {
        for hit in hits {
            self.push_back(*hit);
        }
    }

    /// Takes the first positions away until there are at most `count`.
    pub(crate) fn keep_last(&mut self, count: usize)
        ensures { self.new ≡ record self.old { positions = window count self.old.positions } }
    {
        while self.len() > count {
            self.pop_front();
        }
    }

    /// `count` positions, from number `from` on.
    pub(crate) fn part(&self, from: usize, count: usize) -> &[u32]
        requires { from + count ≤ length self.now.positions }
        ensures { result.now ≡ take count (drop from self.now.positions) }
    {
        self.queue.part(from, count)
    }

    /// For each position whether it occurs.
    pub(crate) fn occurring(&self, alloc: Global) -> Result<Marks, Memory>
        ensures { IfOk result (λ marks. marks ≡ marks_of self.now.bits self.now.positions) }
    {
        Marks::of_counts(alloc, &self.counts)
    }
}
