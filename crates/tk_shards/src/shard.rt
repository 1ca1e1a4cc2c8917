ghost use Rattle.std.specs.Prelude.{◌≡◌, ℕ, ◌+◌, ◌*◌, ◌^◌, ◌<◌, ◌≤◌, length, set, slice_index_or, vec_len, Vec, IfOk};
ghost use Rattle.std.specs.Global.{Global as GlobalOf};
ghost use Rattle.std.specs.List.{All};
ghost use Rattle.tk_answer.specs.Runs.{IsRun};
ghost use Rattle.tk_kernel.specs.Pieces.{AllSized};
ghost use Rattle.tk_kernel.specs.Xor.{xor_bytes};
ghost use Rattle.tk_shards.specs.Ranged.{range_in, part_of, padded, most_blocks};

use crate::copying::{add_blocks, write_block};
use std::alloc::Global;
use std::marker::Model;
use tk_answer::Blocks;
use tk_kernel::xor_choose_each;
use tk_shape::Memory;

/// The blocks of a range, one behind the other; before and behind them blocks of zeros, so that
/// they begin and end at whole eights of all blocks, as a vector's bytes do.
#[derive(Debug, Drop)]
pub(crate) struct Shard {
    width: u32,
    first: u32,
    count: u32,
    bytes: Vec<u8>,
}

impl Model for Shard {
    ghost use Rattle.tk_shards.specs.Ranged.{Ranged};
    ghost use Rattle.tk_shards.specs.Packing.{ranged, IsPacked};

    ghost Value = { Ranged };

    ghost view = { λ s. ranged s.width s.first s.count s.bytes.items };

    ghost invariant = { λ s. IsPacked s.width s.first s.count s.bytes.items };
}

impl Shard {
    /// A copy of the blocks from one number to before another.
    pub(crate) fn of<B: Blocks>(
        alloc: Global,
        blocks: &B,
        from: u32,
        end: u32,
    ) -> Result<Shard, Memory>
        requires order { from ≤ end }
        requires within { end ≤ length (B.blocks blocks.now) }
        requires small { length (B.blocks blocks.now) ≤ most_blocks }
        ensures blocks { IfOk result (λ s.
            s ≡ range_in (B.width blocks.now) from end (B.blocks blocks.now)) }
        ensures sized { IfOk result (λ s. AllSized s.width s.blocks) }
    {
        let width = blocks.width();
        let (before, behind) = (from % 8, (8 - end % 8) % 8);
        let len = (before + (end - from) + behind) as usize * width as usize;
        let mut bytes = Vec::with_capacity(alloc, len)?;
        bytes.resize(before as usize * width as usize, 0)?;
        add_blocks(&mut bytes, blocks, from, end)?;
        bytes.resize(len, 0)?;
        Ok(Shard {
            width,
            first: from,
            count: end - from,
            bytes,
        })
    }

    /// The number of the first block.
    pub(crate) fn first(&self) -> u32
        ensures { result ≡ self.now.first }
    {
        self.first
    }

    /// Adds to each sum what its vector over all blocks chooses of the range.
    pub(crate) fn add(&self, sums: &mut [Vec<u8>], rows: &[Vec<u8>])
        requires same { length sums.old ≡ length rows.now }
        requires sized { All (λ v. vec_len v ≡ self.now.width) sums.old }
        requires reach { All (λ v. self.now.first + length self.now.blocks ≤ 8 * vec_len v) rows.now }
        ensures count { length sums.new ≡ length sums.old }
        ensures each { (k : ℕ) (d e : Vec ℕ GlobalOf) → k < length sums.old
            → (slice_index_or sums.new k d).items
            ≡ xor_bytes (slice_index_or sums.old k d).items
            (part_of self.now (slice_index_or rows.now k e).items) }
    {
        let width = self.width as usize;
        let first = (self.first / 8) as usize;
        xor_choose_each(sums, width, self.bytes.as_slice(), rows, first);
    }

    /// How many eights of blocks, also in part, the range has.
    pub(crate) fn eights(&self) -> u32
        ensures count { 8 * result ≡ length (padded self.now) }
        ensures small { result < 2 ^ 29 }
    {
        (self.first % 8 + self.count).div_ceil(8)
    }

    /// The blocks of the range from its own number `i` on.
    pub(crate) fn blocks_from(&self, i: u32) -> &[u8]
        requires { i < length self.now.blocks }
        ensures { IsRun self.now.blocks i result.now }
    {
        let width = self.width as usize;
        let before = self.first % 8;
        let from = (before + i) as usize * width;
        let end = (before + self.count) as usize * width;
        &self.bytes[from..end]
    }

    /// Writes a block over the range's own number `i`.
    pub(crate) fn put(&mut self, i: u32, block: &[u8])
        requires within { i < length self.old.blocks }
        requires width { length block.now ≡ self.old.width }
        ensures { self.new ≡ record self.old { blocks = set self.old.blocks i block.now } }
    {
        let number = self.first % 8 + i;
        write_block(self.bytes.as_mut_slice(), number as usize, block);
    }
}

/// The blocks of the range, and those of zeros around them.
impl Blocks for Shard {
    ghost blocks = { λ s. padded s };

    ghost width = { λ s. s.width };

    fn count(&self) -> u32 {
        8 * self.eights()
    }

    fn width(&self) -> u32 {
        self.width
    }

    fn run(&self, i: u32) -> &[u8] {
        &self.bytes[i as usize * self.width as usize..]
    }
}
