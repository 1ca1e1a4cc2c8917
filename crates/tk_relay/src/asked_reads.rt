//! What clients ask in a turn, and the bundles that they send to server 1.
ghost use Rattle.std.specs.Prelude.{◌≡◌, ◌<◌, ℕ, List, length, map, IfOk, OnOk};
ghost use Rattle.std.specs.List.{AllByRecursion};
ghost use Rattle.tk_shape.specs.Lengths.{turn_count};
ghost use Rattle.tk_schedule.specs.Schedule.{epoch_at, serial_history};
ghost use Rattle.tk_frames.specs.declared.read_frame.ReadFrame.{ReadFrame as Frame};
ghost use Rattle.tk_frames.specs.Ranges.{IsRead};
ghost use Rattle.tk_frames.specs.Spelling.{read_frame};
ghost use Rattle.tk_relay.specs.Bundles.{AreOneRead};
ghost use Rattle.tk_relay.specs.Reads.{IsSplitRead};
ghost use Rattle.tk_relay.specs.Pads.{ArePads, paddings_of};
ghost use Rattle.tk_relay.specs.Relayed.{frames_read};
ghost use Rattle.tk_relay.specs.Running.{ClientWrote, ClientAsked, ClientsWrote, ClientsAsked};
ghost use Rattle.tk_relay.specs.Running.{AreSentUnder, StandsAfter};

use crate::relayed_read::RelayedRead;
use crate::{Pads, bundle, split};
use std::alloc::Global;
use tk_client::Client;
use tk_cluster::EpochSet;
use tk_frames::{ReadFrame, decode_read};
use tk_report::Plan;
use tk_shape::{Bytes, Memory, Shape};
use tk_words::Draws;

/// The pads of all clients for a turn, each from its seed.
pub(crate) fn pads_of_all(
    alloc: Global,
    shape: &Shape,
    seeds: &[[u8; 32]],
    turn: u32,
) -> Result<Vec<Pads>, Memory>
    ensures { IfOk result (λ pads. pads.items ≡ paddings_of shape.now seeds.now turn) }
{
    let mut pads = Vec::new(alloc);
    for seed in seeds {
        pads.push(Pads::keyed(alloc, shape, seed, turn)?)?;
    }
    Ok(pads)
}

/// The reads of all clients in a turn, as server 1 passes them on, each under the client's pads. What is worth reading is
/// told by the filter of the epoch that all read.
pub(crate) fn ask_all<D: Draws>(
    alloc: Global,
    plan: &Plan<D>,
    pads: &[Pads],
    turn: u32,
    clients: &mut [Client],
    set: &EpochSet,
) -> Result<Vec<RelayedRead>, Memory>
    requires turn_in { turn < turn_count plan.now.script.now.shape }
    requires serial { plan.now.history.now ≡ serial_history plan.now.script.now.shape }
    requires counted { length pads.now ≡ plan.now.script.now.shape.clients }
    requires pads { (seeds : List (List ℕ))
        × (pads.now ≡ paddings_of plan.now.script.now.shape seeds turn) }
    requires clients { ClientsWrote plan.now.script.now (D.book plan.now.draws.now)
        plan.now.history.now turn clients.old }
    requires set { StandsAfter plan.now.script.now (D.book plan.now.draws.now)
        plan.now.history.now turn set.now }
    requires epoch { set.now.number ≡ epoch_at plan.now.history.now turn 0 }
    ensures clients { OnOk result (ClientsAsked plan.now.script.now (D.book plan.now.draws.now)
        plan.now.history.now turn clients.new) }
    ensures reads { IfOk result (λ reads. AreSentUnder plan.now.script.now
        (D.book plan.now.draws.now) plan.now.history.now turn pads.now reads.items) }
{
    let shape = &plan.script.shape;
    let mut reads = Vec::new(alloc);
    'asking: for (i, client) in clients.iter_mut().enumerate() {
        let frames = ask(alloc, plan, turn, i as u32, client, set)?;
        reads.push(send(alloc, shape, frames.as_slice(), &pads[i])?)?;
    }
    Ok(reads)
}

/// The frames of a client's read in a turn, one for each server.
fn ask<D: Draws>(
    alloc: Global,
    plan: &Plan<D>,
    turn: u32,
    number: u32,
    client: &mut Client,
    set: &EpochSet,
) -> Result<Vec<ReadFrame>, Memory>
    requires turn_in { turn < turn_count plan.now.script.now.shape }
    requires number_in { number < plan.now.script.now.shape.clients }
    requires client { ClientWrote plan.now.script.now (D.book plan.now.draws.now)
        plan.now.history.now turn number client.old }
    requires set { StandsAfter plan.now.script.now (D.book plan.now.draws.now)
        plan.now.history.now turn set.now }
    requires epoch { set.now.number ≡ epoch_at plan.now.history.now turn number }
    ensures client { OnOk result (ClientAsked plan.now.script.now (D.book plan.now.draws.now)
        plan.now.history.now turn number client.new) }
    ensures frames { let book = D.book plan.now.draws.now in
        IfOk result (λ frames. frames.items
        ≡ frames_read plan.now.script.now book plan.now.history.now turn number) }
{
    let epoch = set.number();
    let mut spelled = Vec::new(alloc);
    client.read_frames(alloc, plan.draws, turn, epoch, set.filter(), &mut spelled)?;
    read_all(alloc, &plan.script.shape, spelled.as_slice())
}

/// The reads that a client's frames spell.
fn read_all(alloc: Global, shape: &Shape, spelled: &[Bytes]) -> Result<Vec<ReadFrame>, Memory>
    ensures { (reads : List Frame) → AllByRecursion (IsRead shape.now) reads
        → spelled.now ≡ map read_frame reads → IfOk result (λ frames. frames.items ≡ reads) }
{
    let mut frames = Vec::new(alloc);
    for bytes in spelled {
        // a client's frame is one in range, so that only memory may be wanting
        let Ok(frame) = decode_read(alloc, shape, bytes.as_slice()) else {
            return Err(Memory);
        };
        frames.push(frame)?;
    }
    Ok(frames)
}

/// A client's read with these frames, under these pads: it sends server 1 the bundle, which splits it.
fn send(
    alloc: Global,
    shape: &Shape,
    frames: &[ReadFrame],
    pads: &Pads,
) -> Result<RelayedRead, Memory>
    requires one_shape { pads.now.shape ≡ shape.now }
    requires masks { ArePads shape.now pads.now.pads }
    requires one_read { AreOneRead shape.now frames.now }
    requires in_range { AllByRecursion (IsRead shape.now) frames.now }
    ensures { IfOk result (IsSplitRead shape.now frames.now pads.now.pads) }
{
    let mut bytes = Vec::new(alloc);
    bundle(shape, frames, pads, &mut bytes)?;
    // what a client bundles is split again, so that only memory may be wanting
    let Ok(parts) = split(alloc, shape, bytes.as_slice()) else {
        return Err(Memory);
    };
    Ok(RelayedRead {
        bundle: Bytes::from_vec(bytes),
        parts,
        replies: Vec::new(alloc),
    })
}
