//! A table's pages, of which a slot is changed.
ghost use Rattle.std.specs.Prelude.{◌≡◌, ◌*◌, ◌<◌, length, map};
ghost use Rattle.tk_bucket.specs.Table.{with_slot};
ghost use Rattle.tk_bucket.specs.Shown.{shown};
ghost use Rattle.tk_bucket.specs.Paging.{with_changed};
ghost use Rattle.tk_bucket.specs.Holding.{IsHeld, held_bytes, table_in_pages, paging_of};

use crate::cut::Cut;
use crate::held::{Held, write_in};
use crate::{SlotRef, Step2};
use tk_pool::PagePool;

pub(crate) fn write_slot(
    cut: Cut,
    pages: &mut Vec<Held>,
    pool: &mut PagePool,
    at: Step2,
    slot: SlotRef<'_>,
)
    requires held { IsHeld cut.page pages.old.items pool.old }
    requires bucket { at.bucket < length pages.old.items * cut.page.buckets }
    requires slot { at.slot < cut.page.depth }
    requires block { length slot.block.now ≡ cut.page.block }
    ensures held { IsHeld cut.page pages.new.items pool.new }
    ensures count { length pages.new.items ≡ length pages.old.items }
    ensures table { let T = table_in_pages cut.page (map held_bytes pages.old.items) in
        table_in_pages cut.page (map held_bytes pages.new.items)
        ≡ with_slot T (at.bucket, at.slot) (shown slot.entry) }
    ensures paging { let before = paging_of cut.page pages.old.items pool.old in
        paging_of cut.page pages.new.items pool.new ≡ with_changed before at.bucket }
{
    let held = &mut pages[cut.page_of(at.bucket) as usize];
    write_in(cut.page, held, pool, cut.place_in(at), slot);
}
