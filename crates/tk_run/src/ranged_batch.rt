//! What a server replies to reads, where its blocks are divided into ranges.
ghost use Rattle.std.specs.Prelude.{◌≤◌};
ghost use Rattle.std.specs.List.{All};
ghost use Rattle.tk_cluster.specs.Refusals.{IsAsked};
ghost use Rattle.tk_run.specs.Answering.{AnswersFrom};
ghost use Rattle.tk_run.specs.Ranging.{made_due};

use crate::crew::Crew;
use crate::kept::{Kept, divided};
use crate::replies::wanting;
use crate::sums::Sums;
use std::alloc::AllocGlobal;
use std::thread::Threads;
use tk_cluster::EpochSet;
use tk_replica::replies;
use tk_shape::{Bytes, Memory};

/// What a server replies to reads of a set's epoch, over the ranges of its blocks, which are kept.
pub(crate) fn batch_in_ranges<A: Sums, R: Threads + Sync + AllocGlobal>(
    rt: &R,
    sums: &A,
    kept: &mut Option<Kept>,
    set: &EpochSet,
    server: u32,
    frames: &[Bytes],
    crew: Crew,
) -> Result<Vec<Bytes>, Memory>
    requires server { (1 ≤ server) × (server ≤ set.now.shape.servers) }
    requires asked { All (IsAsked set.now) frames.now }
    ensures { AnswersFrom (made_due (A.sum sums.now) crew.shards) set.now frames.now result }
{
    let alloc = rt.alloc();
    let (askers, vectors) = match set.reads(alloc, frames) {
        Ok(reads) => reads,
        Err(error) => return Err(wanting(error)),
    };
    let now = divided(alloc, kept.take(), set.blocks(server), crew.shards)?;
    let sums = sums.of(rt, &now.set, vectors.as_slice(), crew.workers)?;
    *kept = Some(now);
    replies(alloc, askers.as_slice(), sums)
}
