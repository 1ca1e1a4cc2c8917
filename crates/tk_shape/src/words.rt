ghost use Rattle.std.specs.Prelude.{◌≡◌, List, ℕ, IfOk};

use crate::Memory;
use std::alloc::{AllocError, Global};
use std::marker::Model;

/// Words of 32 bits, seen as their list.
#[derive(Debug, Drop)]
pub struct Words {
    items: Vec<u32>,
}

impl Model for Words {
    ghost Value = { List ℕ };

    ghost view = { λ w. w.items.items };
}

impl Words {
    /// A copy of a slice.
    pub fn from_slice(alloc: Global, words: &[u32]) -> Result<Words, Memory>
        ensures { IfOk result (λ w. w ≡ words.now) }
    {
        Ok(Words {
            items: Vec::from_slice(alloc, words)?,
        })
    }

    pub fn from_vec(items: Vec<u32>) -> Words
        ensures { result ≡ items.items }
    {
        Words { items }
    }

    pub fn as_slice(&self) -> &[u32]
        ensures { result.now ≡ self.now }
    {
        self.items.as_slice()
    }

    pub fn into_vec(self) -> Vec<u32>
        ensures { result.items ≡ self }
    {
        self.items
    }
}

impl Clone for Words {
    ghost is_clone = { λ x y. y ≡ x };

    fn clone(&self) -> Result<Words, AllocError> {
        let items = Vec::from_slice(*self.items.allocator(), &self.items)?;
        Ok(Words { items })
    }
}
