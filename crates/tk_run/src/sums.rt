use std::thread::Threads;
use tk_shape::{Bytes, Memory};
use tk_shards::ShardSet;

/// What makes the sums over a server's blocks in ranges.
pub trait Sums: Sync {
    ghost use Rattle.std.specs.Prelude.{◌≡◌, ◌*◌, ◌≤◌, List, ℕ, length, map, IfOk};
    ghost use Rattle.std.specs.List.{All};
    ghost use Rattle.std.specs.Thread.{IsSync};
    ghost use Rattle.tk_shards.specs.Shards.{Sharded};
    ghost use Rattle.tk_run.specs.Ranged.{MakesBlocks};

    /// The sum that it makes for a vector.
    ghost sum: { Self → Sharded → List ℕ → List ℕ };

    /// The sums for these vectors, by at most so many workers side by side.
    fn of<R: Threads + Sync>(
        &self,
        rt: &R,
        set: &ShardSet,
        vectors: &[Bytes],
        workers: u32,
    ) -> Result<Vec<Bytes>, Memory>
        requires sync { IsSync R.row }
        requires vectors { All (λ v. 8 * length v ≡ length set.now.blocks) vectors.now }
        requires workers { 1 ≤ workers }
        ensures { IfOk result (λ sums. sums.items ≡ map (sum self.now set.now) vectors.now) };

    /// Each is as long as a block.
    ghost sized: { (sums : Self) → MakesBlocks (sum sums) };
}

/// The sums that the ranges make, each range its own part.
#[derive(Clone, Copy, Drop)]
pub struct OwnSums;

impl Sums for OwnSums {
    ghost use Rattle.tk_kernel.specs.Chosen.{chosen_sum};
    ghost use Rattle.tk_run.specs.Sized.{sum-sized};

    ghost sum = { λ own set vector. chosen_sum set.width set.blocks vector };

    ghost sized = { λ own set vector whole. sum-sized set.width set.blocks vector whole };

    fn of<R: Threads + Sync>(
        &self,
        rt: &R,
        set: &ShardSet,
        vectors: &[Bytes],
        workers: u32,
    ) -> Result<Vec<Bytes>, Memory> {
        set.answer_by(rt, vectors, workers as usize)
    }
}
