ghost use Rattle.std.specs.Prelude.{◌≡◌, [], replicate, IfOk};
ghost use Rattle.std.specs.Borrow.{sem};
ghost use Rattle.tk_pool.specs.Lending.{LendsBytes};

use crate::Memory;
use std::alloc::Global;
use std::marker::Model;

/// A page; seen as its bytes.
#[derive(Debug, Drop)]
pub struct Page {
    bytes: Vec<u8>,
}

impl Model for Page {
    ghost use Rattle.std.specs.Prelude.{List, ℕ};

    ghost Value = { List ℕ };

    ghost view = { λ p. p.bytes.items };
}

impl Page {
    /// A page of zeros.
    pub fn zeroed(alloc: Global, len: u32) -> Result<Page, Memory>
        ensures { IfOk result (λ page. page ≡ replicate len 0) }
    {
        Ok(Page {
            bytes: vec![in alloc; 0u8; len as usize]?,
        })
    }

    /// A page of no bytes, to stand where a page is taken out. It takes no memory.
    pub fn empty(alloc: Global) -> Page
        ensures { result ≡ [] }
    {
        Page {
            bytes: Vec::new(alloc),
        }
    }

    pub fn bytes(&self) -> &[u8]
        ensures { result.now ≡ self.now }
    {
        self.bytes.as_slice()
    }

    /// Its bytes, to be written over.
    pub fn bytes_mut(&mut self) -> &mut [u8]
        ensures* writes_back { sem 𝓛 (LendsBytes self.entry result) }
        ensures value { result.now ≡ self.old }
    {
        self.bytes.as_mut_slice()
    }
}
