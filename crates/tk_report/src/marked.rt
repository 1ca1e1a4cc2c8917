ghost use Rattle.std.specs.Prelude.{◌≡◌, IfOk};
ghost use Rattle.tk_report.specs.Ledgers.{IsTakenOf};

use std::alloc::Global;
use tk_bloom::{Filter, Window};
use tk_shape::Memory;
use tk_table::{Snapshot, Table};

/// What the entries before a mark leave for a read: the buckets of the table, and the filter of what
/// is worth reading.
#[derive(Drop)]
pub struct Marked {
    pub(crate) blocks: Snapshot,
    pub(crate) filter: Filter,
}

impl Marked {
    /// What a table and a window are now.
    pub(crate) fn of(alloc: Global, table: &mut Table, window: &Window) -> Result<Marked, Memory>
        ensures taken { IfOk result (IsTakenOf table.old window.now) }
        ensures kept { table.new ≡ table.old }
    {
        Ok(Marked {
            blocks: table.snapshot(alloc)?,
            filter: window.filter(alloc)?,
        })
    }

    /// The bytes of each bucket.
    pub fn blocks(&self) -> &Snapshot
        ensures { result.now ≡ self.now.blocks }
    {
        &self.blocks
    }

    /// Which positions of the filter are marked.
    pub fn filter(&self) -> &Filter
        ensures { result.now ≡ self.now.filter }
    {
        &self.filter
    }
}
