ghost use Rattle.std.specs.Prelude.{◌≡◌};

use std::marker::Model;
use tk_answer::Blocks;
use tk_bucket::Packed;

/// The buckets of a table at one moment, each a block of bytes.
#[derive(Debug, Drop)]
pub struct Snapshot {
    packed: Packed,
}

impl Model for Snapshot {
    ghost use Rattle.tk_bucket.specs.Bytes.{BlockList};

    ghost Value = { BlockList };

    ghost view = { λ s. s.packed };
}

impl Snapshot {
    pub(crate) fn from_packed(packed: Packed) -> Snapshot
        ensures { result ≡ packed }
    {
        Snapshot { packed }
    }
}

impl Blocks for Snapshot {
    ghost blocks = { λ s. s.blocks };

    ghost width = { λ s. s.width };

    fn count(&self) -> u32 {
        self.packed.count()
    }

    fn width(&self) -> u32 {
        self.packed.width()
    }

    fn run(&self, i: u32) -> &[u8] {
        self.packed.run(i)
    }
}
