ghost use Rattle.std.specs.Prelude.{◌≡◌, ◌*◌, ◌<◌, ◌≤◌, true, [], length, map, set, slice_index_or, IfOk, OnOk, OnErr, IsOk};
ghost use Rattle.std.specs.List.{All};
ghost use Rattle.tk_kernel.specs.Chosen.{chosen_sum};
ghost use Rattle.tk_shards.specs.Division.{ranges_of};
ghost use Rattle.tk_shards.specs.Shards.{AreSameBut};

use crate::division::Division;
use crate::opening::shards_of;
use crate::parts::{parts_of, rows_of, total_of};
use crate::place::place_of;
use crate::shard::Shard;
use std::alloc::Global;
use std::marker::Model;
use std::thread::Threads;
use tk_answer::Blocks;
use tk_shape::{Bytes, Memory};

/// Blocks in ranges, each of which has bytes of its own. Seen as the bytes of a block, the list of
/// all blocks, and where each range begins and ends.
#[derive(Debug, Drop)]
pub struct ShardSet {
    width: u32,
    count: u32,
    shards: Vec<Shard>,
}

impl Model for ShardSet {
    ghost use Rattle.tk_shards.specs.Shards.{Sharded, sharded, AreShards};

    ghost Value = { Sharded };

    ghost view = { λ s. sharded s.width s.shards.items };

    ghost invariant = { λ s. AreShards s.width s.count s.shards.items };
}

impl ShardSet {
    /// A copy of the blocks in the ranges of the division. More than 4,294,967,288 blocks are
    /// refused as want of memory.
    pub fn open<B: Blocks>(
        alloc: Global,
        blocks: &B,
        division: Division,
    ) -> Result<ShardSet, Memory>
        requires { division.buckets ≡ length (B.blocks blocks.now) }
        ensures { IfOk result (λ s. s ≡ record {
          width = B.width blocks.now;
          blocks = B.blocks blocks.now;
          ranges = ranges_of division;
        }) }
    {
        let count = division.buckets();
        if count > u32::MAX - 7 {
            return Err(Memory);
        }
        let shards = shards_of(alloc, blocks, &division)?;
        Ok(ShardSet {
            width: blocks.width(),
            count,
            shards,
        })
    }

    /// The sum of the blocks that the vector chooses, as `answer` of `tk_answer` gives it, with a
    /// worker for each range. Where memory is wanting nothing is written.
    pub fn answer<R: Threads + Sync>(
        &self,
        rt: &R,
        vector: &[u8],
        out: &mut [u8],
    ) -> Result<(), Memory>
        requires width { length out.old ≡ self.now.width }
        requires count { 8 * length vector.now ≡ length self.now.blocks }
        ensures sum { OnOk result (out.new
            ≡ chosen_sum self.now.width self.now.blocks vector.now) }
        ensures err { OnErr result (out.new ≡ out.old) }
    {
        let alloc = *self.shards.allocator();
        let vectors = [Bytes::from_slice(alloc, vector)?];
        let sums = self.answer_all(rt, &vectors)?;
        out.copy_from_slice(sums[0].as_slice());
        Ok(())
    }

    /// The sums for many vectors, in their order. Each range's are made by a worker of its own in one
    /// pass over the range, in a thread of its own where one can be made, and then added.
    pub fn answer_all<R: Threads + Sync>(
        &self,
        rt: &R,
        vectors: &[Bytes],
    ) -> Result<Vec<Bytes>, Memory>
        requires { All (λ v. 8 * length v ≡ length self.now.blocks) vectors.now }
        ensures sums { IfOk result (λ sums. sums.items
            ≡ map (chosen_sum self.now.width self.now.blocks) vectors.now) }
        ensures none { vectors.now ≡ [] → IsOk result }
    {
        self.answer_by(rt, vectors, self.shards.len())
    }

    /// The same by at most so many workers side by side, who share the ranges.
    pub fn answer_by<R: Threads + Sync>(
        &self,
        rt: &R,
        vectors: &[Bytes],
        workers: usize,
    ) -> Result<Vec<Bytes>, Memory>
        requires vectors { All (λ v. 8 * length v ≡ length self.now.blocks) vectors.now }
        requires workers { 1 ≤ workers }
        ensures sums { IfOk result (λ sums. sums.items
            ≡ map (chosen_sum self.now.width self.now.blocks) vectors.now) }
        ensures none { vectors.now ≡ [] → IsOk result }
    {
        let alloc = *self.shards.allocator();
        if vectors.is_empty() {
            return Ok(Vec::new(alloc));
        }
        let rows = rows_of(alloc, vectors)?;
        let size = self.shards.len().div_ceil(workers);
        let width = self.width as usize;
        let parts = parts_of(
            rt,
            alloc,
            width,
            self.shards.as_slice(),
            rows.as_slice(),
            size,
        )?;
        total_of(alloc, parts)
    }

    /// The numbers of those of its blocks that aren't these.
    pub fn changes<B: Blocks>(&self, blocks: &B) -> Result<Vec<u32>, Memory>
        requires width { B.width blocks.now ≡ self.now.width }
        requires count { length (B.blocks blocks.now) ≡ length self.now.blocks }
        ensures { IfOk result (λ changed.
            AreSameBut changed.items (B.blocks blocks.now) self.now.blocks) }
    {
        let mut changed = Vec::new(*self.shards.allocator());
        for i in 0..self.count() {
            if !self.has(blocks, i) {
                changed.push(i)?;
            }
        }
        Ok(changed)
    }

    /// Whether block number `i` of these is its own.
    fn has<B: Blocks>(&self, blocks: &B, i: u32) -> bool
        requires within { i < length self.now.blocks }
        requires count { length (B.blocks blocks.now) ≡ length self.now.blocks }
        ensures { result ≡ true → slice_index_or (B.blocks blocks.now) i []
            ≡ slice_index_or self.now.blocks i [] }
    {
        let width = blocks.width() as usize;
        let own = self.width() as usize;
        blocks.run(i)[..width] == self.run(i)[..own]
    }

    /// Takes over these blocks, of which only those of the listed numbers have changed. A listed
    /// number that is no block's is passed over. It takes no memory.
    pub fn update<B: Blocks>(&mut self, blocks: &B, changed: &[u32])
        requires width { B.width blocks.now ≡ self.old.width }
        requires same { AreSameBut changed.now (B.blocks blocks.now) self.old.blocks }
        ensures { self.new ≡ record self.old { blocks = B.blocks blocks.now } }
    {
        for &i in changed {
            if i < self.count() {
                self.put(blocks, i);
            }
        }
    }

    /// Writes block number `i` of these over its own.
    fn put<B: Blocks>(&mut self, blocks: &B, i: u32)
        requires within { i < length self.old.blocks }
        requires count { length (B.blocks blocks.now) ≡ length self.old.blocks }
        requires width { B.width blocks.now ≡ self.old.width }
        ensures { let block = slice_index_or (B.blocks blocks.now) i [] in
            self.new ≡ record self.old { blocks = set self.old.blocks i block } }
    {
        let width = blocks.width() as usize;
        let run = blocks.run(i);
        let place = place_of(self.shards.as_slice(), i);
        let shard = &mut self.shards[place];
        let first = shard.first();
        shard.put(i - first, &run[..width]);
    }

    /// Divides the blocks anew, and changes none of them. Nothing has changed after an error.
    pub fn recut(&mut self, division: Division) -> Result<(), Memory>
        requires { division.buckets ≡ length self.old.blocks }
        ensures cut { OnOk result (self.new ≡ record self.old { ranges = ranges_of division }) }
        ensures err { OnErr result (self.new ≡ self.old) }
    {
        let alloc = *self.shards.allocator();
        let again = ShardSet::open(alloc, self, division)?;
        *self = again;
        Ok(())
    }
}

impl Blocks for ShardSet {
    ghost blocks = { λ s. s.blocks };

    ghost width = { λ s. s.width };

    fn count(&self) -> u32 {
        self.count
    }

    fn width(&self) -> u32 {
        self.width
    }

    fn run(&self, i: u32) -> &[u8] {
        let shard = &self.shards[place_of(self.shards.as_slice(), i)];
        shard.blocks_from(i - shard.first())
    }
}
