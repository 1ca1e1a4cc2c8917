ghost use Rattle.std.specs.Prelude.{◌≡◌, ◌+◌, ◌^◌, ◌<◌, ◌++◌, ◌∷◌, [], List, IfOk};
ghost use Rattle.tk_shape.specs.declared.shape.Shape.{Shape};
ghost use Rattle.tk_frames.specs.declared.entry.Placed.{Placed};
ghost use Rattle.tk_frames.specs.InOrder.{IsNext};
ghost use Rattle.tk_table.specs.Puts.{put_of};
ghost use Rattle.tk_report.specs.Counts.{HasCounted, MayCount};
ghost use Rattle.tk_report.specs.Displaced.{displaced_in};

use std::alloc::Global;
use tk_frames::{Entry, Placed};
use tk_shape::{Memory, Shape};
use tk_table::{Put, Table};

/// The entries of a run as far as they came: the table of the latest writes, how many entries there
/// were, and how many of the writes found no place when they came.
#[derive(Drop)]
pub(crate) struct Count {
    pub table: Table,
    pub entries: u64,
    pub displaced: u32,
}

impl Count {
    /// No entries yet.
    pub(crate) fn open(alloc: Global, shape: &Shape) -> Result<Count, Memory>
        ensures { IfOk result (HasCounted shape.now []) }
    {
        Ok(Count {
            table: Table::open(alloc, shape)?,
            entries: 0,
            displaced: 0,
        })
    }

    /// Takes the next entry.
    pub(crate) fn take(&mut self, placed: &Placed)
        requires { MayCount placed.now self.old }
        ensures { (shape : Shape) (E : List Placed) → HasCounted shape E self.old
            → IsNext shape E placed.now → HasCounted shape (E ++ placed.now ∷ []) self.new }
    {
        self.entries = placed.position;
        let Entry::Write(write) = &placed.entry else {
            return;
        };
        let pair = (write.first, write.second);
        match self
            .table
            .put(placed.position, pair, write.block.as_slice())
        {
            Put::Placed => {}
            Put::Displaced => self.displaced += 1,
        }
    }
}

/// How many writes of an order are displaced, of which this became of the last entry and so many
/// were displaced before it.
pub fn displaced_with(before: u32, put: Option<Put>) -> u32
    requires { before + 1 < 2 ^ 32 }
    ensures { (shape : Shape) (E : List Placed) (p : Placed) → before ≡ displaced_in shape E
        → put ≡ put_of shape E p → result ≡ displaced_in shape (E ++ p ∷ []) }
{
    let Some(put) = put else {
        return before;
    };
    match put {
        Put::Displaced => before + 1,
        Put::Placed => before,
    }
}
