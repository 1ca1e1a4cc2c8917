//! How a table is cut into pages.
ghost use Rattle.std.specs.Prelude.{◌≡◌, ◌/◌, ◌%◌, ◌^◌, ◌<◌, ◌≤◌};
ghost use Rattle.tk_bucket.specs.Sizes.{bucket_len};
ghost use Rattle.tk_bucket.specs.Paging.{IsPerPage};

use crate::Step2;
use crate::sizes::Sizes;

/// The sizes of a page, whose buckets are 2 to the power `shift`: so a bucket's page is found
/// without a division.
#[derive(Clone, Copy, Debug, PartialEq, Eq)]
pub(crate) struct Cut {
    pub page: Sizes,
    pub shift: u32,
    pub ghost power: { page.buckets ≡ 2 ^ shift },
    pub ghost small: { shift < 32 },
}

impl Cut {
    /// The pages of a table.
    pub fn of(table: Sizes) -> Cut
        ensures per_page { let page = result.page in
            IsPerPage table.buckets (bucket_len page.depth page.block) page.buckets }
        ensures depth { result.page.depth ≡ table.depth }
        ensures block { result.page.block ≡ table.block }
    {
        let (buckets, shift) = per_page(table.buckets, table.bucket_len());
        let page = Sizes {
            buckets,
            depth: table.depth,
            block: table.block,
        };
        Cut { page, shift }
    }

    /// The number of a bucket's page.
    pub fn page_of(self, bucket: u32) -> u32
        ensures { result ≡ bucket / self.page.buckets }
    {
        bucket >> self.shift
    }

    /// Where a slot lies in its page.
    pub fn place_in(self, at: Step2) -> Step2
        ensures bucket { result.bucket ≡ at.bucket % self.page.buckets }
        ensures slot { result.slot ≡ at.slot }
    {
        Step2 {
            bucket: at.bucket & (self.page.buckets - 1),
            slot: at.slot,
        }
    }
}

/// The buckets of a page, of `width` bytes each; and the power of two that they are.
fn per_page(buckets: u32, width: usize) -> (u32, u32)
    requires some { 1 ≤ buckets }
    requires most { buckets ≤ 16384 }
    requires width { 1 ≤ width }
    requires wide { width ≤ 8320 }
    ensures per_page { IsPerPage buckets width result.0 }
    ensures power { result.0 ≡ 2 ^ result.1 }
    ensures some { 1 ≤ result.0 }
    ensures few { result.1 ≤ 14 }
{
    let mut shift = 0;
    let mut per = 1;
    let mut len = width;
    while len <= 2048 && per * 2 <= buckets {
        shift += 1;
        per *= 2;
        len *= 2;
    }
    (per, shift)
}
