ghost use Rattle.std.specs.Prelude.{◌≡◌, ◌+◌, ◌≤◌, ◌++◌, [], List, IfOk, OnOk};
ghost use Rattle.tk_shape.specs.declared.shape.Shape.{Shape};
ghost use Rattle.tk_frames.specs.Order.{before};
ghost use Rattle.tk_frames.specs.declared.entry.Placed.{Placed};
ghost use Rattle.tk_report.specs.Displaced.{displaced_in};
ghost use Rattle.tk_report.specs.Ledgers.{Keeps, IsLeftBy, IsTakenOf};
ghost use Rattle.tk_report.specs.declared.marked.Marked.{Marked};

use crate::count::Count;
use crate::marked::Marked;
use crate::takes::Takes;
use std::alloc::Global;
use std::mem;
use tk_bloom::Window;
use tk_frames::{Entry, Placed};
use tk_shape::{Memory, Shape};

/// What the entries of a run leave for its reads: the table and the window of the latest writes, and
/// what they were at the last mark and at the one before it. It knows how many writes were displaced.
#[derive(Drop)]
pub struct Ledger {
    pub(crate) count: Count,
    pub(crate) window: Window,
    pub(crate) last: u32,
    pub(crate) newest: Marked,
    pub(crate) older: Marked,
}

impl Ledger {
    /// What there is before any entry.
    pub fn open(alloc: Global, shape: &Shape) -> Result<Ledger, Memory>
        ensures { IfOk result (Keeps shape.now []) }
    {
        let mut count = Count::open(alloc, shape)?;
        let window = Window::open(alloc, shape.filter_bits, shape.hits, shape.retained)?;
        let newest = Marked::of(alloc, &mut count.table, &window)?;
        let older = Marked::of(alloc, &mut count.table, &window)?;
        Ok(Ledger {
            count,
            window,
            last: 0,
            newest,
            older,
        })
    }

    /// What the writes before a mark left, which is the last or the one before it.
    pub fn epoch(&self, e: u32) -> &Marked
        requires low { self.now.last ≤ e + 1 }
        requires high { e ≤ self.now.last }
        ensures { (shape : Shape) (E : List Placed) → Keeps shape E self.now
            → IsLeftBy shape (before E e) result.now }
    {
        if e == self.last {
            &self.newest
        } else {
            &self.older
        }
    }

    /// How many writes were displaced when they came.
    pub(crate) fn displaced(&self) -> u32
        ensures { (shape : Shape) (E : List Placed) → Keeps shape E self.now
            → result ≡ displaced_in shape E }
    {
        self.count.displaced
    }

    /// Takes a mark.
    fn mark(&mut self, alloc: Global, number: u32) -> Result<(), Memory>
        ensures { OnOk result ((marked : Marked)
            × IsTakenOf self.old.count.table self.old.window marked
            × (self.new ≡ record self.old {
              last = number;
              newest = marked;
              older = self.old.newest;
            })) }
    {
        let marked = Marked::of(alloc, &mut self.count.table, &self.window)?;
        self.older = mem::replace(&mut self.newest, marked);
        self.last = number;
        Ok(())
    }
}

impl Takes for Ledger {
    ghost took = { λ was shape E F is. Keeps shape (E ++ F) is };

    fn taken(&self) -> u64 {
        self.count.entries
    }

    fn take(&mut self, alloc: Global, placed: &Placed) -> Result<(), Memory> {
        self.count.take(placed);
        match &placed.entry {
            Entry::Write(write) => {
                self.window.push(write.hits.as_slice());
                Ok(())
            }
            Entry::Mark(number) => self.mark(alloc, *number),
        }
    }

    ghost in_order = { λ was shape E F is keeps. keeps.count.order };
}
