ghost use Rattle.std.specs.Prelude.{◌≡◌, ◌≢◌, ◌*◌, ◌/◌, ◌<◌, ◌≤◌, length, map, max, replicate};
ghost use Rattle.std.specs.Prelude.{true, false, IsTrue, IfOk};
ghost use Rattle.tk_bucket.specs.Sizes.{IsSizes, bucket_len};
ghost use Rattle.tk_bucket.specs.Table.{Slot, IsSized, empty_table, empty_slot, is_empty};
ghost use Rattle.tk_bucket.specs.Table.{slot_at, with_slot, with_moved};
ghost use Rattle.tk_bucket.specs.Shown.{Shows, shown};
ghost use Rattle.tk_bucket.specs.Bytes.{blocks_of};
ghost use Rattle.tk_bucket.specs.Packing.{table_in};
ghost use Rattle.tk_bucket.specs.Paging.{IsPaged, shared_count, with_changed};
ghost use Rattle.tk_bucket.specs.Holding.{is_shared};

use crate::changes::write_slot;
use crate::cut::Cut;
use crate::held::{Held, bytes_of};
use crate::opening::{empty_pages, filled_pages};
use crate::sharing::share_all;
use crate::sizes::Sizes;
use crate::slots::slot_at;
use crate::{Memory, Packed, SlotRef, Step2};
use std::alloc::Global;
use std::marker::Model;
use tk_pool::PagePool;

/// The slots of a table, packed bucket after bucket in pages, which snapshots share until they are
/// changed. Seen as the list of its buckets, each the list of its slots; and of its pages, which of
/// them are shared, and how many are spare.
#[derive(Debug, Drop)]
pub struct Buckets {
    cut: Cut,
    pages: Vec<Held>,
    pool: PagePool,
}

impl Model for Buckets {
    ghost use Rattle.tk_bucket.specs.Paging.{Stored};
    ghost use Rattle.tk_bucket.specs.Holding.{IsHeld, contents_of, paging_of};

    ghost Value = { Stored };

    ghost view = { λ b. record {
      contents = contents_of b.cut.page b.pages.items;
      paging = paging_of b.cut.page b.pages.items b.pool;
    } };

    ghost invariant = { λ b. IsHeld b.cut.page b.pages.items b.pool };
}

impl Buckets {
    /// A table of empty slots, with blocks of `block` bytes. No page is shared, and none is spare.
    pub fn new(alloc: Global, buckets: u32, depth: u32, block: u32) -> Result<Buckets, Memory>
        requires { IsSizes buckets depth block }
        ensures contents { IfOk result (λ b. b.contents ≡ record {
          buckets = buckets;
          depth = depth;
          block = block;
          table = empty_table buckets depth block;
        }) }
        ensures owned { IfOk result (λ b. b.paging.shared
            ≡ replicate (length b.paging.shared) false) }
        ensures spare { IfOk result (λ b. b.paging.spare ≡ 0) }
    {
        let cut = Cut::of(Sizes {
            buckets,
            depth,
            block,
        });
        let page_len = cut.page.table_len() as u32;
        let pages = empty_pages(alloc, page_len, cut.page_of(buckets))?;
        let pool = PagePool::new(alloc, page_len);
        Ok(Buckets { cut, pages, pool })
    }

    /// A table with the slots of these bytes, bucket after bucket. It reserves all its pages first, and
    /// then takes them.
    pub fn restore(
        alloc: Global,
        buckets: u32,
        depth: u32,
        block: u32,
        bytes: &[u8],
    ) -> Result<Buckets, Memory>
        requires sizes { IsSizes buckets depth block }
        requires whole { length bytes.now ≡ buckets * bucket_len depth block }
        ensures contents { IfOk result (λ b. b.contents ≡ record {
          buckets = buckets;
          depth = depth;
          block = block;
          table = table_in buckets depth block bytes.now;
        }) }
        ensures owned { IfOk result (λ b. b.paging.shared
            ≡ replicate (length b.paging.shared) false) }
        ensures spare { IfOk result (λ b. b.paging.spare ≡ 0) }
    {
        let cut = Cut::of(Sizes {
            buckets,
            depth,
            block,
        });
        let page_len = cut.page.table_len() as u32;
        let count = cut.page_of(buckets);
        let mut pool = PagePool::new(alloc, page_len);
        pool.reserve(alloc, count)?;
        let pages = filled_pages(alloc, &mut pool, page_len, count, bytes)?;
        Ok(Buckets { cut, pages, pool })
    }

    /// Has no effect, and says what sizes the table has, whatever was written.
    pub fn sized(&self)
        ensures sizes { IsSized self.now.contents }
        ensures paged { let c = self.now.contents in
            IsPaged c.buckets (bucket_len c.depth c.block) self.now.paging }
    {
        let _ = &self.pages;
    }

    /// How many pages the table has.
    pub fn pages(&self) -> u32
        ensures pages { result ≡ length self.now.paging.shared }
        ensures count { result ≡ self.now.contents.buckets / self.now.paging.per_page }
    {
        self.pages.len() as u32
    }

    /// How many of them are shared.
    pub fn shared(&self) -> u32
        ensures { result ≡ shared_count self.now.paging.shared }
    {
        shared_in(&self.pages)
    }

    /// How many pages are spare: as many as are shared, or more.
    pub fn spare(&self) -> u32
        ensures spare { result ≡ self.now.paging.spare }
        ensures enough { shared_count self.now.paging.shared ≤ result }
    {
        self.pool.spare()
    }

    /// A slot; nothing is copied.
    pub fn slot(&self, bucket: u32, slot: u32) -> SlotRef<'_>
        requires bucket_in { bucket < self.now.contents.buckets }
        requires slot_in { slot < self.now.contents.depth }
        ensures { Shows result (slot_at self.now.contents.table (bucket, slot)) }
    {
        let held = &self.pages[self.cut.page_of(bucket) as usize];
        let place = self.cut.place_in(Step2 { bucket, slot });
        slot_at(self.cut.page, bytes_of(held), place)
    }

    /// Whether a slot has no record.
    pub fn is_empty(&self, bucket: u32, slot: u32) -> bool
        requires bucket_in { bucket < self.now.contents.buckets }
        requires slot_in { slot < self.now.contents.depth }
        ensures { result ≡ is_empty (slot_at self.now.contents.table (bucket, slot)) }
    {
        self.slot(bucket, slot).position == 0
    }

    /// Writes a record into a slot, over what was there. It takes no memory.
    pub fn write_slot(
        &mut self,
        bucket: u32,
        slot: u32,
        position: u64,
        pair: (u32, u32),
        block: &[u8],
    )
        requires bucket_in { bucket < self.old.contents.buckets }
        requires slot_in { slot < self.old.contents.depth }
        requires position { 1 ≤ position }
        requires block { length block.now ≡ self.old.contents.block }
        ensures contents { let s : Slot = record {
          position = position;
          first = pair.0;
          second = pair.1;
          block = block.now;
        } in
            self.new.contents ≡ record self.old.contents {
              table = with_slot self.old.contents.table (bucket, slot) s;
            } }
        ensures paging { self.new.paging ≡ with_changed self.old.paging bucket }
    {
        let (first, second) = pair;
        let content = SlotRef {
            position,
            first,
            second,
            block,
        };
        self.fill(Step2 { bucket, slot }, content);
    }

    /// Writes any content into a slot.
    fn fill(&mut self, at: Step2, content: SlotRef<'_>)
        requires bucket_in { at.bucket < self.old.contents.buckets }
        requires slot_in { at.slot < self.old.contents.depth }
        requires block { length content.block.now ≡ self.old.contents.block }
        ensures contents { let c = self.old.contents in
            self.new.contents ≡ record c {
              table = with_slot c.table (at.bucket, at.slot) (shown content.entry);
            } }
        ensures paging { self.new.paging ≡ with_changed self.old.paging at.bucket }
    {
        write_slot(self.cut, &mut self.pages, &mut self.pool, at, content);
    }

    /// Moves a slot's content into an empty slot, and leaves its own empty. It takes no memory.
    pub fn move_slot(&mut self, from: Step2, to: Step2)
        requires from_in { let c = self.old.contents in
            (from.bucket < c.buckets) × (from.slot < c.depth) }
        requires to_in { let c = self.old.contents in
            (to.bucket < c.buckets) × (to.slot < c.depth) }
        requires empty { IsTrue (is_empty (slot_at self.old.contents.table (to.bucket, to.slot))) }
        requires other { from ≢ to }
        ensures contents { self.new.contents ≡ record self.old.contents {
          table = with_moved self.old.contents (from.bucket, from.slot) (to.bucket, to.slot);
        } }
        ensures paging { let written = with_changed self.old.paging to.bucket in
            self.new.paging ≡ with_changed written from.bucket }
    {
        self.sized();
        let mut copy = [0; 1024];
        let found = self.slot(from.bucket, from.slot);
        let block = &mut copy[..found.block.len()];
        block.copy_from_slice(found.block);
        let content = SlotRef {
            position: found.position,
            first: found.first,
            second: found.second,
            block,
        };
        self.fill(to, content);
        self.clear_slot(from.bucket, from.slot);
    }

    /// Empties a slot. It takes no memory.
    pub fn clear_slot(&mut self, bucket: u32, slot: u32)
        requires bucket_in { bucket < self.old.contents.buckets }
        requires slot_in { slot < self.old.contents.depth }
        ensures contents { let empty = empty_slot self.old.contents.block in
            self.new.contents ≡ record self.old.contents {
              table = with_slot self.old.contents.table (bucket, slot) empty;
            } }
        ensures paging { self.new.paging ≡ with_changed self.old.paging bucket }
    {
        let zeros = [0; 1024];
        let content = SlotRef {
            position: 0,
            first: 0,
            second: 0,
            block: &zeros[..self.cut.page.block as usize],
        };
        self.fill(Step2 { bucket, slot }, content);
    }

    /// Each bucket's bytes as they are now. Later changes don't reach them. No byte is copied: the
    /// pages are shared, and the memory for what later changes copy is taken here.
    pub fn snapshot(&mut self, alloc: Global) -> Result<Packed, Memory>
        ensures width { let c = self.old.contents in
            IfOk result (λ p. p.width ≡ bucket_len c.depth c.block) }
        ensures blocks { IfOk result (λ p. p.blocks ≡ blocks_of self.old.contents.table) }
        ensures kept { self.new.contents ≡ self.old.contents }
        ensures per_page { self.new.paging.per_page ≡ self.old.paging.per_page }
        ensures shared { let pages = length self.old.paging.shared in
            IfOk result (λ _. self.new.paging.shared ≡ replicate pages true) }
        ensures spare { let pages = length self.old.paging.shared in
            IfOk result (λ _. self.new.paging.spare ≡ max self.old.paging.spare pages) }
        ensures more_shared { shared_count self.old.paging.shared
            ≤ shared_count self.new.paging.shared }
        ensures more_spare { self.old.paging.spare ≤ self.new.paging.spare }
    {
        let count = self.pages.len() as u32;
        self.pool.reserve(alloc, count)?;
        let kept = share_all(alloc, &mut self.pages)?;
        Ok(Packed::from_pages(self.cut, kept))
    }
}

/// How many pages are shared.
fn shared_in(pages: &[Held]) -> u32
    requires { length pages.now ≤ 16384 }
    ensures { result ≡ shared_count (map is_shared pages.now) }
{
    pages
        .iter()
        .filter(|held| matches!(held, Held::Shared(_)))
        .count() as u32
}
