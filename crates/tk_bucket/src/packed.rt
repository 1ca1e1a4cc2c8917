ghost use Rattle.std.specs.Prelude.{◌≡◌, ◌-◌, ◌<◌, ◌≤◌, ℕ, map, length, take, drop};
ghost use Rattle.std.specs.Prelude.{slice_index_or};
ghost use Rattle.std.specs.Arc.{arc_value};
ghost use Rattle.tk_kernel.specs.Pieces.{AllSized};
ghost use Rattle.tk_bucket.specs.Sizes.{bucket_len};
ghost use Rattle.tk_bucket.specs.Bytes.{blocks_of};
ghost use Rattle.tk_bucket.specs.Holding.{page_len, table_in_pages};

use crate::Step2;
use crate::cut::Cut;
use std::marker::Model;
use std::sync::Arc;
use tk_answer::Blocks;
use tk_pool::Page;

/// The buckets of a table at one moment, each a block of bytes; several in a page, which the table
/// may share.
#[derive(Debug, Drop)]
pub struct Packed {
    cut: Cut,
    pages: Vec<Arc<Page>>,
}

impl Model for Packed {
    ghost use Rattle.std.specs.Prelude.{map};
    ghost use Rattle.std.specs.Arc.{arc_value};
    ghost use Rattle.tk_bucket.specs.Sizes.{bucket_len};
    ghost use Rattle.tk_bucket.specs.Bytes.{BlockList, blocks_of};
    ghost use Rattle.tk_bucket.specs.Holding.{AreWhole, table_in_pages};

    ghost Value = { BlockList };

    ghost view = { λ p. record {
      width = bucket_len p.cut.page.depth p.cut.page.block;
      blocks = blocks_of (table_in_pages p.cut.page (map arc_value p.pages.items));
    } };

    ghost invariant = { λ p. AreWhole p.cut.page (map arc_value p.pages.items) };
}

impl Packed {
    pub(crate) fn from_pages(cut: Cut, pages: Vec<Arc<Page>>) -> Packed
        requires few { length pages.items ≤ 16384 }
        requires whole { AllSized (page_len cut.page) (map arc_value pages.items) }
        ensures width { result.width ≡ bucket_len cut.page.depth cut.page.block }
        ensures blocks { result.blocks
            ≡ blocks_of (table_in_pages cut.page (map arc_value pages.items)) }
    {
        Packed { cut, pages }
    }
}

impl Blocks for Packed {
    ghost blocks = { λ p. p.blocks };

    ghost width = { λ p. p.width };

    fn count(&self) -> u32 {
        self.pages.len() as u32 * self.cut.page.buckets
    }

    fn width(&self) -> u32 {
        self.cut.page.bucket_len() as u32
    }

    fn run(&self, i: u32) -> &[u8] {
        let page = &self.pages[self.cut.page_of(i) as usize];
        let first = self.cut.place_in(Step2 { bucket: i, slot: 0 });
        rest_from(page.bytes(), self.cut.page.bucket_start(first.bucket))
    }
}

/// The bytes from number `start` on.
fn rest_from(bytes: &[u8], start: usize) -> &[u8]
    requires { start ≤ length bytes.now }
    ensures rest { result.now ≡ take (length bytes.now - start) (drop start bytes.now) }
    ensures bytes { (i : ℕ) → slice_index_or bytes.now i 0 < 256 }
{
    &bytes[start..]
}
