ghost use Rattle.std.specs.Prelude.{◌≡◌, ◌+◌, ◌<◌, ◌≤◌, length, max, IfOk};
ghost use Rattle.std.specs.Prelude.{OnErr};
ghost use Rattle.std.specs.Vec.{vec_capacity};
ghost use Rattle.tk_pool.specs.Pool.{Spares, AreSpare, IsPool};

use crate::{Memory, Page};
use std::alloc::Global;
use std::marker::Model;

/// Spare pages of one length. Seen as that length, how many pages are spare, and for how many spare
/// ones there is room.
#[derive(Debug, Drop)]
pub struct PagePool {
    page_len: u32,
    pages: Vec<Page>,
}

impl Model for PagePool {
    ghost use Rattle.std.specs.Prelude.{length};
    ghost use Rattle.std.specs.Vec.{vec_capacity};
    ghost use Rattle.tk_pool.specs.Pool.{Spares, IsPool};

    ghost Value = { Spares };

    ghost view = { λ p. record {
      page_len = p.page_len;
      spare = length p.pages.items;
      room = vec_capacity p.pages;
    } };

    ghost invariant = { λ p. IsPool p.page_len (vec_capacity p.pages) p.pages.items };
}

impl PagePool {
    /// No spare page. It takes no memory.
    pub fn new(alloc: Global, page_len: u32) -> PagePool
        ensures len { result.page_len ≡ page_len }
        ensures spare { result.spare ≡ 0 }
    {
        PagePool {
            page_len,
            pages: Vec::new(alloc),
        }
    }

    /// Makes at least `n` pages spare. If memory runs out, nothing changes.
    pub fn reserve(&mut self, alloc: Global, n: u32) -> Result<(), Memory>
        ensures len { self.new.page_len ≡ self.old.page_len }
        ensures spare { IfOk result (λ _. self.new.spare ≡ max self.old.spare n) }
        ensures err { OnErr result (self.new ≡ self.old) }
        ensures kept { self.old.spare ≤ self.new.spare }
        ensures no_more { self.new.spare ≤ max self.old.spare n }
        ensures room { self.old.room ≤ self.new.room }
        ensures fits { self.new.spare ≤ self.new.room }
    {
        make_spare(alloc, &mut self.pages, self.page_len, n)
    }

    /// One of the spare pages, with any bytes. It takes no memory.
    pub fn take(&mut self) -> Page
        requires { 1 ≤ self.old.spare }
        ensures page { length result ≡ self.old.page_len }
        ensures len { self.new.page_len ≡ self.old.page_len }
        ensures spare { self.new.spare + 1 ≡ self.old.spare }
        ensures room { self.new.room ≡ self.old.room }
    {
        self.pages.pop().unwrap()
    }

    /// Makes a page spare. It takes no memory.
    pub fn give(&mut self, page: Page)
        requires page { length page ≡ self.old.page_len }
        requires room { self.old.spare < self.old.room }
        ensures { self.new ≡ record self.old { spare = self.old.spare + 1 } }
    {
        self.pages.push_reserved(page);
    }

    /// How many pages are spare.
    pub fn spare(&self) -> u32
        ensures { result ≡ self.now.spare }
    {
        self.pages.len() as u32
    }
}

/// Makes pages until there are `n`. If memory runs out, nothing changes.
fn make_spare(alloc: Global, pages: &mut Vec<Page>, page_len: u32, n: u32) -> Result<(), Memory>
    requires { IsPool page_len (vec_capacity pages.old) pages.old.items }
    ensures pool { IsPool page_len (vec_capacity pages.new) pages.new.items }
    ensures spare { IfOk result (λ _. length pages.new.items ≡ max (length pages.old.items) n) }
    ensures room { vec_capacity pages.old ≤ vec_capacity pages.new }
    ensures err_spare { OnErr result (length pages.new.items ≡ length pages.old.items) }
    ensures err_room { OnErr result (vec_capacity pages.new ≡ vec_capacity pages.old) }
{
    let missing = n.saturating_sub(pages.len() as u32);
    let made = blank_pages(alloc, page_len, missing)?;
    pages.reserve_exact(missing as usize)?;
    for page in made {
        pages.push_reserved(page);
    }
    Ok(())
}

/// So many pages of zeros.
fn blank_pages(alloc: Global, page_len: u32, count: u32) -> Result<Vec<Page>, Memory>
    ensures each { IfOk result (λ pages. AreSpare page_len pages.items) }
    ensures counted { IfOk result (λ pages. length pages.items ≡ count) }
{
    let mut pages = Vec::with_capacity(alloc, count as usize)?;
    for _made in 0..count {
        pages.push_reserved(Page::zeroed(alloc, page_len)?);
    }
    Ok(pages)
}
