//! The range in which a block lies.
ghost use Rattle.std.specs.Prelude.{◌<◌, length};
ghost use Rattle.tk_shards.specs.Shards.{blocks_of, AreInRow, IsIn};

use crate::shard::Shard;

/// The number of the range in which block `i` lies.
pub(crate) fn place_of(shards: &[Shard], i: u32) -> usize
    requires row { AreInRow 0 shards.now }
    requires within { i < length (blocks_of shards.now) }
    ensures { IsIn shards.now i result }
{
    let mut low = 0;
    let mut high = shards.len();
    while high - low > 1 {
        let middle = low + (high - low) / 2;
        if shards[middle].first() <= i {
            low = middle;
        } else {
            high = middle;
        }
    }
    low
}
