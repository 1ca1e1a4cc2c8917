//! The latest writes: their positions and their buckets.
ghost use Rattle.std.specs.Prelude.{◌≡◌, ◌<◌, ◌≤◌, ◌++◌, ◌∷◌, [], length, drop, IfOk};
ghost use Rattle.std.specs.Prelude.{vec_len, vec_capacity};

use crate::Memory;
use std::alloc::Global;
use std::marker::Model;

/// One of the latest writes.
#[derive(Clone, Copy, Debug)]
pub(crate) struct Recent {
    pub position: u64,
    pub pair: (u32, u32),
}

/// The latest writes, the oldest first. The positions lie in one run, and so do the buckets; a run
/// moves down where it comes to the end of its room.
#[derive(Drop)]
pub(crate) struct Latest {
    positions: Vec<u64>,
    pairs: Vec<(u32, u32)>,
    start: usize,
    most: usize,
}

impl Model for Latest {
    ghost use Rattle.std.specs.Prelude.{drop, vec_len, vec_capacity};
    ghost use Rattle.tk_table.specs.Inside.{LatestWrites, IsLatest};

    ghost Value = { LatestWrites };

    ghost view = { λ l. record {
      room = l.most;
      positions = drop l.start l.positions.items;
      pairs = drop l.start l.pairs.items;
    } };

    ghost invariant = { λ l. IsLatest l.start l.most (vec_len l.positions) (vec_len l.pairs)
        (vec_capacity l.positions) (vec_capacity l.pairs) };
}

impl Latest {
    /// No writes yet, and room for so many. A run of so many moves down once in so many eighths of
    /// them.
    pub fn new(alloc: Global, count: u32) -> Result<Latest, Memory>
        ensures room { IfOk result (λ l. count ≤ l.room) }
        ensures positions { IfOk result (λ l. l.positions ≡ []) }
        ensures pairs { IfOk result (λ l. l.pairs ≡ []) }
    {
        let most = count as usize + count as usize / 8 + 1;
        Ok(Latest {
            positions: Vec::with_capacity(alloc, most)?,
            pairs: Vec::with_capacity(alloc, most)?,
            start: 0,
            most,
        })
    }

    /// Writes with these positions and these buckets, the oldest first, and room for so many.
    pub fn of(
        alloc: Global,
        count: u32,
        positions: &[u64],
        pairs: &[(u32, u32)],
    ) -> Result<Latest, Memory>
        requires few { length positions.now ≤ count }
        requires beside { length pairs.now ≡ length positions.now }
        ensures room { IfOk result (λ l. count ≤ l.room) }
        ensures positions { IfOk result (λ l. l.positions ≡ positions.now) }
        ensures pairs { IfOk result (λ l. l.pairs ≡ pairs.now) }
    {
        let mut latest = Latest::new(alloc, count)?;
        for i in 0..positions.len() {
            latest.come(Recent {
                position: positions[i],
                pair: pairs[i],
            });
        }
        Ok(latest)
    }

    /// Their positions, the oldest first.
    pub fn positions(&self) -> &[u64]
        ensures { result.now ≡ self.now.positions }
    {
        &self.positions[self.start..]
    }

    /// How many there are.
    pub fn len(&self) -> usize
        ensures { result ≡ length self.now.positions }
    {
        self.positions.len() - self.start
    }

    /// The oldest leaves.
    pub fn leave(&mut self) -> Recent
        requires some { 0 < length self.old.positions }
        requires beside { length self.old.pairs ≡ length self.old.positions }
        ensures room { self.new.room ≡ self.old.room }
        ensures positions { self.old.positions ≡ result.position ∷ self.new.positions }
        ensures pairs { self.old.pairs ≡ result.pair ∷ self.new.pairs }
    {
        let at = self.start;
        self.start = at + 1;
        Recent {
            position: self.positions[at],
            pair: self.pairs[at],
        }
    }

    /// One more comes. Memory is there already.
    pub fn come(&mut self, write: Recent)
        requires { length self.old.positions < self.old.room }
        ensures room { self.new.room ≡ self.old.room }
        ensures positions { self.new.positions ≡ self.old.positions ++ write.position ∷ [] }
        ensures pairs { self.new.pairs ≡ self.old.pairs ++ write.pair ∷ [] }
    {
        if self.positions.len() < self.most {
            self.positions.push_reserved(write.position);
            self.pairs.push_reserved(write.pair);
            return;
        }
        move_down(&mut self.positions, self.start);
        move_down(&mut self.pairs, self.start);
        self.start = 0;
        self.positions.push_reserved(write.position);
        self.pairs.push_reserved(write.pair);
    }
}

/// What stands from a place on goes to the front.
fn move_down<T: Copy + Drop>(items: &mut Vec<T>, start: usize)
    requires { start ≤ vec_len items.old }
    ensures items { items.new.items ≡ drop start items.old.items }
    ensures capacity { vec_capacity items.new ≡ vec_capacity items.old }
{
    let len = items.len() - start;
    items.copy_within(start.., 0);
    items.truncate(len);
}
