//! Reads and replies whose bytes stay where they lie.
ghost use Rattle.std.specs.Prelude.{◌≡◌, ◌++◌, IfOk};
ghost use Rattle.tk_frames.specs.Lent.{lent_read, seeds_by_way};

use crate::{ReadFrame, Seeds};
use std::alloc::Global;
use tk_shape::{Bytes, Memory};

/// How a read tells its vectors: as they are, by their seeds alone, or as they are after their seeds.
#[derive(Clone, Copy, Debug)]
pub enum Way {
    Plain,
    Seeded,
    Shown,
}

/// A read whose seeds and vectors are lent, those of the first bucket and those of the second. Of what its way doesn't
/// tell nothing is said.
#[derive(Clone, Copy, Debug)]
pub struct LentRead<'a> {
    pub client: u32,
    pub turn: u32,
    pub epoch: u32,
    pub way: Way,
    pub seeds: (&'a [u8], &'a [u8]),
    pub vectors: (&'a [u8], &'a [u8]),
}

impl LentRead<'_> {
    /// The read with bytes of its own.
    pub fn to_frame(&self, alloc: Global) -> Result<ReadFrame, Memory>
        ensures { IfOk result (λ frame. frame ≡ lent_read self.now) }
    {
        Ok(ReadFrame {
            client: self.client,
            turn: self.turn,
            epoch: self.epoch,
            first: Bytes::from_slice(alloc, self.vectors.0)?,
            second: Bytes::from_slice(alloc, self.vectors.1)?,
            seeds: seeds_of(alloc, self.way, self.seeds)?,
        })
    }
}

/// How a read with bytes of its own tells its vectors.
fn seeds_of(alloc: Global, way: Way, halves: (&[u8], &[u8])) -> Result<Seeds, Memory>
    ensures { IfOk result (λ seeds.
        seeds ≡ seeds_by_way way (halves.entry.0.now ++ halves.entry.1.now)) }
{
    if let Way::Plain = way {
        return Ok(Seeds::Plain);
    }
    let mut seeds = Vec::with_capacity(alloc, halves.0.len().saturating_add(halves.1.len()))?;
    seeds.extend_from_slice(halves.0)?;
    seeds.extend_from_slice(halves.1)?;
    let seeds = Bytes::from_vec(seeds);
    match way {
        Way::Shown => Ok(Seeds::Shown(seeds)),
        _ => Ok(Seeds::Seeded(seeds)),
    }
}

/// A reply whose sums are lent.
#[derive(Clone, Copy, Debug)]
pub struct LentReply<'a> {
    pub client: u32,
    pub turn: u32,
    pub epoch: u32,
    pub sums: (&'a [u8], &'a [u8]),
}
