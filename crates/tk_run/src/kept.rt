//! A server's blocks in ranges, which are kept from one batch of reads to the next.
ghost use Rattle.std.specs.Prelude.{◌≡◌, ◌≤◌, length, IfOk};
ghost use Rattle.tk_run.specs.Ranging.{even_ranges, in_even_ranges, AreNumbers};

use std::alloc::Global;
use tk_answer::Blocks;
use tk_shape::Memory;
use tk_shards::{Division, ShardSet};
use tk_table::Snapshot;

/// Blocks in so many even ranges.
#[derive(Drop)]
pub(crate) struct Kept {
    pub set: ShardSet,
    pub shards: u32,
    pub ghost even: { set.ranges ≡ even_ranges (length set.blocks) shards },
}

/// These blocks in so many even ranges: those that were kept, where there are such, or else new ones.
pub(crate) fn divided(
    alloc: Global,
    kept: Option<Kept>,
    blocks: &Snapshot,
    shards: u32,
) -> Result<Kept, Memory>
    requires { (1 ≤ shards) × (shards ≤ 64) }
    ensures { IfOk result (λ k. k.set ≡ in_even_ranges blocks.now.width blocks.now.blocks shards) }
{
    let Some(kept) = kept else {
        return opened(alloc, blocks, shards);
    };
    if kept.shards != shards
        || kept.set.count() != blocks.count()
        || kept.set.width() != blocks.width()
    {
        return opened(alloc, blocks, shards);
    }
    brought(alloc, kept, blocks)
}

/// A copy of these blocks.
fn opened(alloc: Global, blocks: &Snapshot, shards: u32) -> Result<Kept, Memory>
    requires { (1 ≤ shards) × (shards ≤ 64) }
    ensures { IfOk result (λ k. k.set ≡ in_even_ranges blocks.now.width blocks.now.blocks shards) }
{
    let division = Division::even(alloc, blocks.count(), shards)?;
    let set = ShardSet::open(alloc, blocks, division)?;
    Ok(Kept { set, shards })
}

/// The same ranges with these blocks, which are written over those that lay there. To look first which
/// have changed takes longer.
fn brought(alloc: Global, kept: Kept, blocks: &Snapshot) -> Result<Kept, Memory>
    requires width { kept.set.width ≡ blocks.now.width }
    requires count { length kept.set.blocks ≡ length blocks.now.blocks }
    ensures { IfOk result (λ k.
        k.set ≡ in_even_ranges blocks.now.width blocks.now.blocks kept.shards) }
{
    let Kept { mut set, shards } = kept;
    let all = numbers_below(alloc, set.count())?;
    set.update(blocks, all.as_slice());
    Ok(Kept { set, shards })
}

/// The numbers from 0 to before this one.
fn numbers_below(alloc: Global, count: u32) -> Result<Vec<u32>, Memory>
    ensures { IfOk result (λ numbers. AreNumbers count numbers.items) }
{
    let mut numbers = Vec::with_capacity(alloc, count as usize)?;
    'numbers: for number in 0..count {
        numbers.push(number)?;
    }
    Ok(numbers)
}
