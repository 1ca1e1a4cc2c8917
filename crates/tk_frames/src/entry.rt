ghost use Rattle.std.specs.Prelude.{◌≡◌};

use crate::WriteFrame;
use std::alloc::AllocError;

/// One entry of the order: a write, or the mark of an epoch.
#[derive(Debug, Drop)]
pub enum Entry {
    Write(WriteFrame),
    Mark(u32),
}

/// An entry with its position, from 1.
#[derive(Debug, Drop)]
pub struct Placed {
    pub position: u64,
    pub entry: Entry,
}

impl Clone for Entry {
    ghost is_clone = { λ x y. y ≡ x };

    fn clone(&self) -> Result<Entry, AllocError> {
        match self {
            Entry::Write(write) => Ok(Entry::Write(write.clone()?)),
            Entry::Mark(epoch) => Ok(Entry::Mark(*epoch)),
        }
    }
}

impl Clone for Placed {
    ghost is_clone = { λ x y. y ≡ x };

    fn clone(&self) -> Result<Placed, AllocError> {
        Ok(Placed {
            position: self.position,
            entry: self.entry.clone()?,
        })
    }
}
