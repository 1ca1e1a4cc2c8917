ghost use Rattle.std.specs.Prelude.{◌≡◌, ◌-◌, ◌++◌, ◌∷◌, [], ℕ, List, length, slice_index_or};
ghost use Rattle.std.specs.Prelude.{IfOk, OnOk, OnErr};

use std::alloc::Global;
use tk_shape::{Bytes, Memory};

/// Where the checkpoint of a run lies between the servers that end and those that begin anew from it.
pub trait Keeper {
    /// What it was given to keep, in order.
    ghost kept: { Self → List (List ℕ) };

    /// What it gives each server.
    ghost gives: { Self → ℕ → List ℕ };

    /// Keeps a checkpoint.
    fn keep(&mut self, alloc: Global, bytes: &[u8]) -> Result<(), Memory>
        ensures ok { OnOk result (kept self.new ≡ kept self.old ++ bytes.now ∷ []) }
        ensures err { OnErr result (kept self.new ≡ kept self.old) };

    /// What a server is to begin anew from.
    fn give(&self, alloc: Global, server: u32) -> Result<Vec<u8>, Memory>
        ensures { IfOk result (λ out. out.items ≡ gives self.now server) };
}

/// Keeps checkpoints in memory, and gives each server the last.
#[derive(Drop)]
pub struct Shelf {
    list: Vec<Bytes>,
}

impl Shelf {
    /// A shelf on which nothing lies.
    pub fn new(alloc: Global) -> Shelf
        ensures { result.list.items ≡ [] }
    {
        Shelf {
            list: Vec::new(alloc),
        }
    }
}

impl Keeper for Shelf {
    ghost kept = { λ k. k.list.items };

    ghost gives = { λ k _. slice_index_or k.list.items (length k.list.items - 1) [] };

    fn keep(&mut self, alloc: Global, bytes: &[u8]) -> Result<(), Memory> {
        self.list.push(Bytes::from_slice(alloc, bytes)?)?;
        Ok(())
    }

    fn give(&self, alloc: Global, _server: u32) -> Result<Vec<u8>, Memory> {
        match self.list.last() {
            Some(bytes) => Ok(Vec::from_slice(alloc, bytes.as_slice())?),
            None => Ok(Vec::new(alloc)),
        }
    }
}
