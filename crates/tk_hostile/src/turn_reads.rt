ghost use Rattle.std.specs.Prelude.{◌≡◌, ◌+◌, ◌-◌, ◌<◌, ◌≤◌, IfOk, OnOk, length, Some, slice_get};
ghost use Rattle.tk_shape.specs.Lengths.{turn_count};
ghost use Rattle.tk_frames.specs.declared.read_frame.ReadFrame.{ReadFrame as Frame};
ghost use Rattle.tk_frames.specs.Ranges.{IsRead};
ghost use Rattle.tk_frames.specs.Spelling.{read_frame};
ghost use Rattle.tk_hostile.specs.Walks.{wrong_run, HasLedger, LiesOpenTo, AreClientsIn, AreClientsOut};
ghost use Rattle.tk_hostile.specs.Walks.{IsClientIn, IsClientOpen, IsClientOut};
ghost use Rattle.tk_hostile.specs.Walks.{read_kept, reads_kept, frames_asked};

use crate::walk::Walk;
use crate::wrong_servers::Servers;
use std::alloc::Global;
use tk_client::Client;
use tk_frames::{ReadFrame, decode_read};
use tk_report::{Ledger, Marked, open_to};
use tk_shape::{Bytes, Memory, Shape};
use tk_words::Draws;

/// Each client reads in a turn. Answers the read frames that the seen server sees, by client. Where
/// memory runs out nothing is promised of the clients.
pub(crate) fn read_turn<D: Draws>(
    alloc: Global,
    walk: &Walk<D>,
    turn: u32,
    ledger: &Ledger,
    clients: &mut [Client],
) -> Result<Vec<ReadFrame>, Memory>
    requires turn_in { turn < turn_count walk.now.plan.now.script.now.shape }
    requires ledger { let run = wrong_run walk.now.plan.now walk.now.replies.now walk.now.sides in
        HasLedger run (turn + 1) ledger.now }
    requires clients { let run = wrong_run walk.now.plan.now walk.now.replies.now walk.now.sides in
        AreClientsIn run turn clients.old }
    ensures reads { let run = wrong_run walk.now.plan.now walk.now.replies.now walk.now.sides in
        IfOk result (λ reads. reads.items ≡ reads_kept run turn) }
    ensures clients { let run = wrong_run walk.now.plan.now walk.now.replies.now walk.now.sides in
        OnOk result (AreClientsOut run turn clients.new) }
{
    let mut reads = Vec::new(alloc);
    for (number, client) in clients.iter_mut().enumerate() {
        reads.push(read_one(alloc, walk, turn, number as u32, ledger, client)?)?;
    }
    Ok(reads)
}

/// A client reads in a turn: it asks all servers, and takes their replies. Answers the read frame
/// that the seen server sees.
fn read_one<D: Draws>(
    alloc: Global,
    walk: &Walk<D>,
    turn: u32,
    number: u32,
    ledger: &Ledger,
    client: &mut Client,
) -> Result<ReadFrame, Memory>
    requires turn_in { turn < turn_count walk.now.plan.now.script.now.shape }
    requires number_in { number < walk.now.plan.now.script.now.shape.clients }
    requires ledger { let run = wrong_run walk.now.plan.now walk.now.replies.now walk.now.sides in
        HasLedger run (turn + 1) ledger.now }
    requires client { let run = wrong_run walk.now.plan.now walk.now.replies.now walk.now.sides in
        IsClientIn run turn number client.old }
    ensures read { let run = wrong_run walk.now.plan.now walk.now.replies.now walk.now.sides in
        IfOk result (λ r. r ≡ read_kept run turn number) }
    ensures client { let run = wrong_run walk.now.plan.now walk.now.replies.now walk.now.sides in
        OnOk result (IsClientOut run turn number client.new) }
{
    let shape = &walk.plan.script.shape;
    let left = open_to(walk.plan, turn, number, ledger);
    let frames = ask(alloc, walk, turn, number, left, client)?;
    let asked = read_of(alloc, shape, frames.as_slice(), walk.sides.asked)?;
    let servers = Servers {
        replies: walk.replies,
        hidden: walk.sides.hidden,
        left,
    };
    let replies = servers.replies(alloc, &asked)?;
    // each is a reply to what was asked, so that only memory may be wanting
    let Ok(()) = client.take_replies(alloc, walk.plan.draws, replies.as_slice()) else {
        return Err(Memory);
    };
    read_of(alloc, shape, frames.as_slice(), walk.sides.seen)
}

/// What a client asks all servers in a turn, in their order. The read is open then.
fn ask<D: Draws>(
    alloc: Global,
    walk: &Walk<D>,
    turn: u32,
    number: u32,
    left: &Marked,
    client: &mut Client,
) -> Result<Vec<Bytes>, Memory>
    requires turn_in { turn < turn_count walk.now.plan.now.script.now.shape }
    requires number_in { number < walk.now.plan.now.script.now.shape.clients }
    requires left { let run = wrong_run walk.now.plan.now walk.now.replies.now walk.now.sides in
        LiesOpenTo run turn number left.now }
    requires client { let run = wrong_run walk.now.plan.now walk.now.replies.now walk.now.sides in
        IsClientIn run turn number client.old }
    ensures frames { let run = wrong_run walk.now.plan.now walk.now.replies.now walk.now.sides in
        IfOk result (λ frames. frames.items ≡ frames_asked run turn number) }
    ensures opened { let run = wrong_run walk.now.plan.now walk.now.replies.now walk.now.sides in
        OnOk result (IsClientOpen run turn number client.new) }
{
    let due = walk.plan.history.epoch(turn, number);
    let mut frames = Vec::new(alloc);
    client.read_frames(
        alloc,
        walk.plan.draws,
        turn,
        due,
        left.filter(),
        &mut frames,
    )?;
    Ok(frames)
}

/// The read frame of a server among those of all.
fn read_of(alloc: Global, shape: &Shape, frames: &[Bytes], server: u32) -> Result<ReadFrame, Memory>
    requires low { 1 ≤ server }
    requires high { server ≤ length frames.now }
    ensures { (r : Frame) → IsRead shape.now r
        → slice_get frames.now (server - 1) ≡ Some (read_frame r) → IfOk result (λ x. x ≡ r) }
{
    // a client's frame is one in range, so that only memory may be wanting
    let Ok(read) = decode_read(alloc, shape, frames[server as usize - 1].as_slice()) else {
        return Err(Memory);
    };
    Ok(read)
}
