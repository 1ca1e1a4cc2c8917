ghost use Rattle.std.specs.Prelude.{◌≡◌, length};
ghost use Rattle.tk_shape.specs.Lengths.{width as width_of};

use tk_bloom::Filter;
use tk_shape::Shape;
use tk_table::Snapshot;

/// What the entries before a mark leave: the buckets of the table, and the filter of what is worth
/// reading. There is a block of the shape's width for each bucket.
#[derive(Debug, Drop)]
pub struct Epoch {
    pub(crate) shape: Shape,
    pub(crate) number: u32,
    pub(crate) upto: u64,
    pub(crate) blocks: Snapshot,
    pub(crate) filter: Filter,
    pub(crate) ghost counted: { length blocks.blocks ≡ shape.buckets },
    pub(crate) ghost wide: { blocks.width ≡ width_of shape },
}

impl Epoch {
    /// The number of the mark; 0 before the first.
    pub fn number(&self) -> u32
        ensures { result ≡ self.now.number }
    {
        self.number
    }

    /// The position of the mark; 0 for epoch 0.
    pub fn upto(&self) -> u64
        ensures { result ≡ self.now.upto }
    {
        self.upto
    }

    /// The bytes of each bucket.
    pub fn blocks(&self) -> &Snapshot
        ensures { result.now ≡ self.now.blocks }
    {
        &self.blocks
    }

    /// Which positions of the filter are marked.
    pub fn filter(&self) -> &Filter
        ensures { result.now ≡ self.now.filter }
    {
        &self.filter
    }
}
