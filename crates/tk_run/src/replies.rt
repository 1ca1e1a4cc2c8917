//! What a server replies to the reads of a turn of threads.
ghost use Rattle.std.specs.Prelude.{◌≡◌, ◌≤◌, ◌<◌, ℕ, List, All, IfOk};
ghost use Rattle.std.specs.Prelude.{length, map, slice_index_or};
ghost use Rattle.tk_shape.specs.declared.shape.Shape.{Shape};
ghost use Rattle.tk_frames.specs.declared.entry.Placed.{Placed};
ghost use Rattle.tk_replica.specs.Replies.{reply_bytes};
ghost use Rattle.tk_cluster.specs.declared.error.AnswerError.TheVariants as errors;
ghost use Rattle.tk_cluster.specs.Refusals.{IsAsked};
ghost use Rattle.tk_run.specs.declared.talk.Reading.{Reading as ReadingOf};
ghost use Rattle.tk_run.specs.Answering.{AreAllAsked, MayReply, AllStand, AnswersFrom, AreReplies};
ghost use Rattle.tk_run.specs.Answering.{frame_of, epoch_of};
ghost use Rattle.tk_run.specs.Ranging.{bytes_made};

use crate::crew::Crew;
use crate::kept::Kept;
use crate::ranged_batch::batch_in_ranges;
use crate::sums::Sums;
use crate::talk::Reading;
use std::alloc::{AllocGlobal, Global};
use std::thread::Threads;
use tk_cluster::{AnswerError, EpochSet};
use tk_shape::{Bytes, Memory};

/// What the server at a place replies to the reads of all clients.
pub(crate) fn replies_of<A: Sums, R: Threads + Sync + AllocGlobal>(
    rt: &R,
    sums: &A,
    kept: &mut Option<Kept>,
    server: usize,
    readings: &[Reading],
    crew: Crew,
) -> Result<Vec<Bytes>, Memory>
    requires asked { (shape : Shape) × (server < shape.servers)
        × All (AreAllAsked shape) readings.now }
    ensures { AreReplies (bytes_made (A.sum sums.now) crew.shards) server readings.now result }
{
    let frames = frames_for(rt.alloc(), server, readings)?;
    let server = server as u32 + 1;
    replies_from(rt, sums, kept, server, readings, frames.as_slice(), crew)
}

/// What all clients ask of the server at a place.
fn frames_for(alloc: Global, server: usize, readings: &[Reading]) -> Result<Vec<Bytes>, Memory>
    requires { All (λ r. server < length r.talk.asked.items) readings.now }
    ensures { IfOk result (λ frames. frames.items ≡ map (frame_of server) readings.now) }
{
    let mut frames = Vec::new(alloc);
    'readings: for reading in readings {
        frames.push(reading.talk.asked[server].clone()?)?;
    }
    Ok(frames)
}

/// What a server replies to the frames of these clients. Those of clients side by side that read
/// one epoch are answered in one batch.
fn replies_from<A: Sums, R: Threads + Sync + AllocGlobal>(
    rt: &R,
    sums: &A,
    kept: &mut Option<Kept>,
    server: u32,
    readings: &[Reading],
    frames: &[Bytes],
    crew: Crew,
) -> Result<Vec<Bytes>, Memory>
    requires asked { (shape : Shape) × MayReply shape server readings.now frames.now }
    ensures { (shape : Shape) (E : List Placed) → AllStand readings.now shape E
        → IfOk result (λ replies. replies.items
        ≡ map (bytes_made (A.sum sums.now) crew.shards shape E) frames.now) }
{
    let mut replies = Vec::new(rt.alloc());
    let mut clients = readings;
    let mut asked = frames;
    'rows: while !clients.is_empty() {
        let (row, behind) = asked.split_at(in_a_row(clients));
        let set = clients[0].talk.set.as_ref();
        let mut more = batch(rt, sums, kept, set, server, row, crew)?;
        let (_answered, others) = clients.split_at(row.len());
        replies.append(&mut more)?;
        clients = others;
        asked = behind;
    }
    Ok(replies)
}

/// How many clients, from the first on, read one epoch without another between them.
fn in_a_row(readings: &[Reading]) -> usize
    requires { 0 < length readings.now }
    ensures some { 0 < result }
    ensures within { result ≤ length readings.now }
    ensures same { (k : ℕ) (d : ReadingOf) → k < result
        → epoch_of (slice_index_or readings.now k d) ≡ epoch_of (slice_index_or readings.now 0 d) }
{
    let epoch = readings[0].talk.set.number();
    let mut count = 1;
    'row: while count < readings.len() && readings[count].talk.set.number() == epoch {
        count += 1;
    }
    count
}

/// What a server replies to reads of a set's epoch. Where its blocks aren't divided the workers share
/// the reads.
fn batch<A: Sums, R: Threads + Sync + AllocGlobal>(
    rt: &R,
    sums: &A,
    kept: &mut Option<Kept>,
    set: &EpochSet,
    server: u32,
    frames: &[Bytes],
    crew: Crew,
) -> Result<Vec<Bytes>, Memory>
    requires server { (1 ≤ server) × (server ≤ set.now.shape.servers) }
    requires asked { All (IsAsked set.now) frames.now }
    ensures { AnswersFrom (bytes_made (A.sum sums.now) crew.shards) set.now frames.now result }
{
    if crew.shards > 1 {
        return batch_in_ranges(rt, sums, kept, set, server, frames, crew);
    }
    batch_at_once(rt, set, server, frames, crew)
}

/// The same over all blocks at once.
fn batch_at_once<R: Threads + Sync>(
    rt: &R,
    set: &EpochSet,
    server: u32,
    frames: &[Bytes],
    crew: Crew,
) -> Result<Vec<Bytes>, Memory>
    requires server { (1 ≤ server) × (server ≤ set.now.shape.servers) }
    requires asked { All (IsAsked set.now) frames.now }
    ensures { AnswersFrom reply_bytes set.now frames.now result }
{
    match set.answer_many(rt, server, frames, crew.workers) {
        Ok(replies) => Ok(replies),
        Err(error) => Err(wanting(error)),
    }
}

/// The one error that is left where what is asked of a set are reads of its epoch.
pub(crate) fn wanting(error: AnswerError) -> Memory
    requires { error ≡ errors.Memory }
{
    let _error = error;
    Memory
}
