//! The servers' replies to all reads of a turn, which are over one epoch: each server goes over its blocks once.
ghost use Rattle.std.specs.Prelude.{◌≡◌, ◌≤◌, length, map, All, IfOk, OnOk};
ghost use Rattle.tk_relay.specs.Reads.{HasAllParts, AreServed, HaveReplies, part_of};
ghost use Rattle.tk_relay.specs.Serving.{ForBlocksOf};

use crate::relayed_read::RelayedRead;
use crate::{Pads, Part, serve_parts};
use std::alloc::Global;
use tk_cluster::EpochSet;
use tk_shape::{Bytes, Memory};

/// All servers reply to their parts of reads over the set's epoch, server by server.
pub(crate) fn serve_all(
    alloc: Global,
    set: &EpochSet,
    pads: &[Pads],
    reads: &mut [RelayedRead],
) -> Result<(), Memory>
    requires counted { length pads.now ≡ length reads.old }
    requires one_shape { All (λ p. p.shape ≡ set.now.shape) pads.now }
    requires whole { All (HasAllParts set.now.shape) reads.old }
    ensures { ForBlocksOf set.now (λ shape blocks. OnOk result
        (AreServed shape blocks pads.now 1 shape.servers reads.old reads.new)) }
{
    for server in 1..set.servers() + 1 {
        serve(alloc, set, server, pads, reads)?;
    }
    Ok(())
}

/// A server replies to its parts of reads.
fn serve(
    alloc: Global,
    set: &EpochSet,
    server: u32,
    pads: &[Pads],
    reads: &mut [RelayedRead],
) -> Result<(), Memory>
    requires low { 1 ≤ server }
    requires high { server ≤ set.now.shape.servers }
    requires counted { length pads.now ≡ length reads.old }
    requires one_shape { All (λ p. p.shape ≡ set.now.shape) pads.now }
    requires whole { All (HasAllParts set.now.shape) reads.old }
    ensures whole { OnOk result (All (HasAllParts set.now.shape) reads.new) }
    ensures served { ForBlocksOf set.now (λ shape blocks. OnOk result
        (AreServed shape blocks pads.now server 1 reads.old reads.new)) }
{
    let parts = passed_on(alloc, server, reads)?;
    // all parts are of the set's epoch, so that only memory may be wanting
    let Ok(replies) = serve_parts(alloc, set, server, parts.as_slice(), pads) else {
        return Err(Memory);
    };
    take_replies(replies, reads)?;
    Ok(())
}

/// What server 1 passes on to a server: its parts of reads. Server 1 keeps its own.
fn passed_on(alloc: Global, server: u32, reads: &[RelayedRead]) -> Result<Vec<Part>, Memory>
    requires low { 1 ≤ server }
    requires parts { All (λ r. server ≤ length r.parts.items) reads.now }
    ensures { IfOk result (λ parts. parts.items ≡ map (λ r. part_of r server) reads.now) }
{
    let mut parts = Vec::new(alloc);
    for read in reads {
        parts.push(copy_of(alloc, &read.parts[server as usize - 1])?)?;
    }
    Ok(parts)
}

fn copy_of(alloc: Global, part: &Part) -> Result<Part, Memory>
    ensures { IfOk result (λ copy. copy ≡ part.now) }
{
    Ok(Part {
        client: part.client,
        turn: part.turn,
        epoch: part.epoch,
        first: Bytes::from_slice(alloc, part.first.as_slice())?,
        second: Bytes::from_slice(alloc, part.second.as_slice())?,
    })
}

/// Each read gets a server's reply.
fn take_replies(replies: Vec<Part>, reads: &mut [RelayedRead]) -> Result<(), Memory>
    ensures { OnOk result (HaveReplies replies.items reads.old reads.new) }
{
    let mut rest = replies.into_iter();
    for read in reads.iter_mut() {
        // there is a reply to each read, so that only memory may be wanting
        let Some(reply) = rest.next() else {
            return Err(Memory);
        };
        read.take(reply)?;
    }
    Ok(())
}
