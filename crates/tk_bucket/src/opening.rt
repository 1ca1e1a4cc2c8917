//! The pages that a table starts with: empty ones, or those of its bytes.
ghost use Rattle.std.specs.Prelude.{◌≡◌, ◌+◌, ◌*◌, ◌≤◌, IfOk, length, map, replicate};
ghost use Rattle.tk_kernel.specs.Pieces.{pieces};
ghost use Rattle.tk_bucket.specs.declared.held.Held.{Held};

use crate::Memory;
use crate::held::Held;
use std::alloc::Global;
use tk_pool::{Page, PagePool};

/// Pages of `page_len` zeros, all owned.
pub(crate) fn empty_pages(alloc: Global, page_len: u32, count: u32) -> Result<Vec<Held>, Memory>
    ensures { let page : Held = Held.Owned (replicate page_len 0) in
        IfOk result (λ pages. pages.items ≡ replicate count page) }
{
    let mut pages = Vec::with_capacity(alloc, count as usize)?;
    for _made in 0..count {
        let page = Page::zeroed(alloc, page_len)?;
        pages.push_reserved(Held::Owned(page));
    }
    Ok(pages)
}

/// Pages of these bytes, one after the other, taken from the pool.
pub(crate) fn filled_pages(
    alloc: Global,
    pool: &mut PagePool,
    page_len: u32,
    count: u32,
    bytes: &[u8],
) -> Result<Vec<Held>, Memory>
    requires len { pool.old.page_len ≡ page_len }
    requires spare { count ≤ pool.old.spare }
    requires whole { length bytes.now ≡ count * page_len }
    ensures pages { IfOk result (λ pages. pages.items
        ≡ map (λ page. Held.Owned page) (pieces page_len count bytes.now)) }
    ensures len { pool.new.page_len ≡ page_len }
    ensures spare { IfOk result (λ _. pool.new.spare + count ≡ pool.old.spare) }
{
    let mut pages = Vec::with_capacity(alloc, count as usize)?;
    let mut rest = bytes;
    for _made in 0..count {
        let (part, others) = rest.split_at(page_len as usize);
        let mut page = pool.take();
        page.bytes_mut().copy_from_slice(part);
        pages.push_reserved(Held::Owned(page));
        rest = others;
    }
    Ok(pages)
}
