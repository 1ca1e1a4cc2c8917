ghost use Rattle.std.specs.Prelude.{◌≡◌, ◌<◌, ◌≤◌, ◌↔◌, ◌++◌, ◌∷◌, [], List, All, IfOk, true};
ghost use Rattle.std.specs.Arc.{arc_value};
ghost use Rattle.tk_frames.specs.Order.{Record};
ghost use Rattle.tk_frames.specs.Ranges.{IsWrite};
ghost use Rattle.tk_table.specs.Ordered.{AreOrdered};
ghost use Rattle.tk_table.specs.Stands.{TableStandsFor, IsWrite as IsRecord};
ghost use Rattle.tk_table.specs.Table.{is_displaced};
ghost use Rattle.tk_replica.specs.Store.{IsStore, IsNewStore, IsTaken, pushed};

use crate::Epoch;
use std::alloc::Global;
use std::marker::Model;
use std::sync::Arc;
use tk_bloom::Window;
use tk_frames::WriteFrame;
use tk_shape::{Memory, Shape};
use tk_table::{Put, Table};

/// What a server has of the latest writes: their table, and the window of their positions in the
/// filter.
#[derive(Drop)]
pub(crate) struct Store {
    shape: Shape,
    table: Table,
    window: Window,
}

impl Model for Store {
    ghost use Rattle.tk_replica.specs.Store.{Stored, IsStore};

    ghost Value = { Stored };

    ghost view = { λ s. record { shape = s.shape; table = s.table; window = s.window } };

    ghost invariant = { λ s. IsStore s.shape s.table s.window };
}

impl Store {
    /// Nothing of any write. It takes all its memory here.
    pub(crate) fn open(alloc: Global, shape: &Shape) -> Result<Store, Memory>
        ensures { IfOk result (IsNewStore shape.now) }
    {
        Ok(Store {
            shape: *shape,
            table: Table::open(alloc, shape)?,
            window: Window::open(alloc, shape.filter_bits, shape.hits, shape.retained)?,
        })
    }

    /// A table and a window of one shape.
    pub(crate) fn of(shape: &Shape, table: Table, window: Window) -> Store
        requires { IsStore shape.now table window }
        ensures { result ≡ record { shape = shape.now; table = table; window = window } }
    {
        Store {
            shape: *shape,
            table,
            window,
        }
    }

    /// Has no effect, and says that its parts are of its shape, whatever was written.
    pub(crate) fn matched(&self)
        ensures { IsStore self.now.shape self.now.table self.now.window }
    {
        let _ = &self.table;
    }

    /// The shape of its parts.
    pub(crate) fn shape(&self) -> &Shape
        ensures { result.now ≡ self.now.shape }
    {
        &self.shape
    }

    /// The table of the latest writes.
    pub(crate) fn table(&self) -> &Table
        ensures { result.now ≡ self.now.table }
    {
        &self.table
    }

    /// The window of their positions in the filter.
    pub(crate) fn window(&self) -> &Window
        ensures { result.now ≡ self.now.window }
    {
        &self.window
    }

    /// Takes a write: it goes into the table, and its positions into the window. The answer is what
    /// became of it in the table.
    pub(crate) fn put(&mut self, position: u64, write: &WriteFrame) -> Put
        requires in_range { IsWrite self.old.shape write.now }
        requires first { 1 ≤ position }
        requires above { All (λ p. p < position) self.old.table.positions }
        ensures rest { self.new ≡ record self.old {
          table = self.new.table;
          window = pushed self.old.window write.now.hits;
        } }
        ensures table_shape { self.new.table.shape ≡ self.old.table.shape }
        ensures latest { All (λ p. p ≤ position) self.new.table.positions }

        // whatever records the table stands for
        ensures table { (R : List Record) (w : Record)
            → TableStandsFor self.old.table R → AreOrdered self.old.table.shape R
            → IsRecord w position (write.now.first, write.now.second) write.now.block
            → TableStandsFor self.new.table (R ++ w ∷ []) }
        ensures displaced { (R : List Record) (w : Record)
            → TableStandsFor self.old.table R → AreOrdered self.old.table.shape R
            → IsRecord w position (write.now.first, write.now.second) write.now.block
            → (result ≡ Put.Displaced) ↔ (is_displaced self.old.table.shape R w ≡ true) }
    {
        let pair = (write.first, write.second);
        self.window.push(write.hits.as_slice());
        self.table.put(position, pair, write.block.as_slice())
    }

    /// An epoch of what is there now.
    pub(crate) fn epoch(
        &mut self,
        alloc: Global,
        number: u32,
        upto: u64,
    ) -> Result<Arc<Epoch>, Memory>
        ensures taken { IfOk result (λ epoch.
            IsTaken self.old.shape number upto self.old.table self.old.window (arc_value epoch)) }
        ensures kept { self.new ≡ self.old }
    {
        let blocks = self.table.snapshot(alloc)?;
        let epoch = Epoch {
            shape: self.shape,
            number,
            upto,
            blocks,
            filter: self.window.filter(alloc)?,
        };
        Ok(Arc::new(alloc, epoch)?)
    }
}
