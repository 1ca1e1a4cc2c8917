ghost use Rattle.std.specs.Prelude.{◌≡◌, List, ℕ, IfOk};

use crate::Memory;
use std::alloc::{AllocError, Global};
use std::marker::Model;

/// Bytes, seen as their list.
#[derive(Debug, Drop)]
pub struct Bytes {
    items: Vec<u8>,
}

impl Model for Bytes {
    ghost Value = { List ℕ };

    ghost view = { λ b. b.items.items };
}

impl Bytes {
    /// A copy of a slice.
    pub fn from_slice(alloc: Global, bytes: &[u8]) -> Result<Bytes, Memory>
        ensures { IfOk result (λ b. b ≡ bytes.now) }
    {
        Ok(Bytes {
            items: Vec::from_slice(alloc, bytes)?,
        })
    }

    pub fn from_vec(items: Vec<u8>) -> Bytes
        ensures { result ≡ items.items }
    {
        Bytes { items }
    }

    pub fn as_slice(&self) -> &[u8]
        ensures { result.now ≡ self.now }
    {
        self.items.as_slice()
    }

    pub fn into_vec(self) -> Vec<u8>
        ensures { result.items ≡ self }
    {
        self.items
    }
}

impl Clone for Bytes {
    ghost is_clone = { λ x y. y ≡ x };

    fn clone(&self) -> Result<Bytes, AllocError> {
        let items = Vec::from_slice(*self.items.allocator(), &self.items)?;
        Ok(Bytes { items })
    }
}
