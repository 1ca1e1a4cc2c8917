//! Blocks copied into the ranges of a division.
ghost use Rattle.std.specs.Prelude.{◌≡◌, ◌≤◌, length, IfOk};
ghost use Rattle.tk_shards.specs.Ranged.{most_blocks};
ghost use Rattle.tk_shards.specs.Shards.{AreDivided};

use crate::division::Division;
use crate::shard::Shard;
use std::alloc::Global;
use tk_answer::Blocks;
use tk_shape::Memory;

/// A copy of the blocks of each range.
pub(crate) fn shards_of<B: Blocks>(
    alloc: Global,
    blocks: &B,
    division: &Division,
) -> Result<Vec<Shard>, Memory>
    requires count { division.now.buckets ≡ length (B.blocks blocks.now) }
    requires small { division.now.buckets ≤ most_blocks }
    ensures { IfOk result (λ shards.
        AreDivided (B.width blocks.now) (B.blocks blocks.now) division.now shards.items) }
{
    let cuts = division.cuts();
    let mut shards = Vec::with_capacity(alloc, cuts.len() + 1)?;
    let mut first = 0;
    for &cut in cuts {
        shards.push(Shard::of(alloc, blocks, first, cut)?)?;
        first = cut;
    }
    let last = Shard::of(alloc, blocks, first, division.buckets())?;
    shards.push(last)?;
    Ok(shards)
}
