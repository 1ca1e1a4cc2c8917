ghost use Rattle.std.specs.Prelude.{◌≡◌};

use std::alloc::AllocError;
use tk_shape::{Bytes, Words};

/// What a client writes in a turn: two buckets, filter positions, and a sealed block.
#[derive(Debug, Drop)]
pub struct WriteFrame {
    pub client: u32,
    pub turn: u32,
    pub first: u32,
    pub second: u32,
    pub hits: Words,
    pub block: Bytes,
}

impl Clone for WriteFrame {
    ghost is_clone = { λ x y. y ≡ x };

    fn clone(&self) -> Result<WriteFrame, AllocError> {
        Ok(WriteFrame {
            client: self.client,
            turn: self.turn,
            first: self.first,
            second: self.second,
            hits: self.hits.clone()?,
            block: self.block.clone()?,
        })
    }
}
