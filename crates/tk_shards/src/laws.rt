ghost use Rattle.tk_shards.specs.Laws.{RangesMakeTheSum};

/// However blocks are divided, the sums over the ranges make the sum over all blocks.
pub fn ranges_make_the_sum()
    ensures { RangesMakeTheSum }
{}
