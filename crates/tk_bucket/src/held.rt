//! A page of a table.
ghost use Rattle.std.specs.Prelude.{◌≡◌, ◌+◌, ◌≤◌, length, true, false, IfOk};
ghost use Rattle.std.specs.Arc.{arc_value};
ghost use Rattle.tk_bucket.specs.Table.{with_slot};
ghost use Rattle.tk_bucket.specs.Shown.{shown};
ghost use Rattle.tk_bucket.specs.Packing.{IsWhole, IsPlace, table_of};
ghost use Rattle.tk_bucket.specs.Paging.{one_if};
ghost use Rattle.tk_bucket.specs.Holding.{held_bytes, is_shared};

use crate::sizes::Sizes;
use crate::slots::write_slot;
use crate::{Memory, SlotRef, Step2};
use std::alloc::Global;
use std::mem;
use std::sync::Arc;
use tk_pool::{Page, PagePool};

/// A page of a table: the table's own, or shared with snapshots, which keep it as it is.
#[derive(Debug, Drop)]
pub(crate) enum Held {
    Owned(Page),
    Shared(Arc<Page>),
}

pub(crate) fn bytes_of(held: &Held) -> &[u8]
    ensures { result.now ≡ held_bytes held.now }
{
    match held {
        Held::Owned(page) => page.bytes(),
        Held::Shared(page) => page.bytes(),
    }
}

/// A shared page is given up for a spare one with the same bytes.
fn own(held: &mut Held, pool: &mut PagePool)
    requires len { length (held_bytes held.old) ≡ pool.old.page_len }
    requires spare { one_if (is_shared held.old) ≤ pool.old.spare }
    ensures owned { held.new ≡ Held.Owned (held_bytes held.old) }
    ensures len { pool.new.page_len ≡ pool.old.page_len }
    ensures spare { pool.new.spare + one_if (is_shared held.old) ≡ pool.old.spare }
{
    if let Held::Shared(page) = &*held {
        let mut copy = pool.take();
        copy.bytes_mut().copy_from_slice(page.bytes());
        *held = Held::Owned(copy);
    }
}

pub(crate) fn write_in(
    sizes: Sizes,
    held: &mut Held,
    pool: &mut PagePool,
    place: Step2,
    slot: SlotRef<'_>,
)
    requires whole { IsWhole sizes (held_bytes held.old) }
    requires len { length (held_bytes held.old) ≡ pool.old.page_len }
    requires spare { one_if (is_shared held.old) ≤ pool.old.spare }
    requires place { IsPlace sizes place }
    requires block { length slot.block.now ≡ sizes.block }
    ensures whole { IsWhole sizes (held_bytes held.new) }
    ensures table { let T = table_of sizes (held_bytes held.old) in
        table_of sizes (held_bytes held.new)
        ≡ with_slot T (place.bucket, place.slot) (shown slot.entry) }
    ensures owned { is_shared held.new ≡ false }
    ensures len { pool.new.page_len ≡ pool.old.page_len }
    ensures spare { pool.new.spare + one_if (is_shared held.old) ≡ pool.old.spare }
{
    own(held, pool);
    match held {
        Held::Owned(page) => {
            write_slot(sizes, page.bytes_mut(), place, slot);
        }
        Held::Shared(_) => unreachable!(),
    }
}

/// The page with one more owner, who gets it too. An owned page moves, and is not copied.
fn shared(held: Held, alloc: Global) -> (Held, Result<Arc<Page>, Memory>)
    ensures bytes { held_bytes result.0 ≡ held_bytes held }
    ensures grown { is_shared held ≡ true → is_shared result.0 ≡ true }
    ensures page { IfOk result.1 (λ page. arc_value page ≡ held_bytes held) }
    ensures shared { IfOk result.1 (λ _. is_shared result.0 ≡ true) }
{
    let page = match held {
        Held::Shared(page) => page,
        Held::Owned(page) => match Arc::new(alloc, page) {
            Ok(page) => page,
            Err(refused) => return (Held::Owned(refused.value), Err(Memory)),
        },
    };
    let other = Arc::try_clone(&page);
    (Held::Shared(page), other.map_err(|_| Memory))
}

/// Shares a page. If memory runs out, it keeps its bytes.
pub(crate) fn share(held: &mut Held, alloc: Global) -> Result<Arc<Page>, Memory>
    ensures bytes { held_bytes held.new ≡ held_bytes held.old }
    ensures grown { is_shared held.old ≡ true → is_shared held.new ≡ true }
    ensures page { IfOk result (λ page. arc_value page ≡ held_bytes held.old) }
    ensures shared { IfOk result (λ _. is_shared held.new ≡ true) }
{
    let before = mem::replace(held, Held::Owned(Page::empty(alloc)));
    let (after, page) = shared(before, alloc);
    *held = after;
    page
}
