//! What clients take of the one reply to each read.
ghost use Rattle.std.specs.Prelude.{◌≡◌, ◌<◌, length, IfOk, OnOk};
ghost use Rattle.std.specs.List.{AllByRecursion};
ghost use Rattle.tk_shape.specs.Lengths.{turn_count, width};
ghost use Rattle.tk_relay.specs.Halves.{HasHalves};
ghost use Rattle.tk_relay.specs.Parts.{halves_of};
ghost use Rattle.tk_relay.specs.Serving.{gathered_part};
ghost use Rattle.tk_relay.specs.Replies.{reply_frames_from};
ghost use Rattle.tk_relay.specs.Running.{ClientAsked, ClientRead, ClientsAsked, ClientsRead};
ghost use Rattle.tk_relay.specs.Running.{AreRepliedUnder, IsRepliedUnder};

use crate::relayed_read::RelayedRead;
use crate::{Pads, gather, replies_for};
use std::alloc::Global;
use tk_client::Client;
use tk_report::Plan;
use tk_shape::{Bytes, Memory, Shape};
use tk_words::Draws;

/// Each client takes the replies to its read of a turn.
pub(crate) fn take_all<D: Draws>(
    alloc: Global,
    plan: &Plan<D>,
    turn: u32,
    pads: &[Pads],
    reads: &[RelayedRead],
    clients: &mut [Client],
) -> Result<(), Memory>
    requires turn_in { turn < turn_count plan.now.script.now.shape }
    requires counted { length pads.now ≡ plan.now.script.now.shape.clients }
    requires reads { AreRepliedUnder plan.now.script.now (D.book plan.now.draws.now)
        plan.now.history.now turn pads.now reads.now }
    requires clients { ClientsAsked plan.now.script.now (D.book plan.now.draws.now)
        plan.now.history.now turn clients.old }
    ensures { OnOk result (ClientsRead plan.now.script.now (D.book plan.now.draws.now)
        plan.now.history.now turn clients.new) }
{
    'taking: for (i, client) in clients.iter_mut().enumerate() {
        take_one(alloc, plan, turn, i as u32, &pads[i], &reads[i], client)?;
    }
    Ok(())
}

/// A client takes the replies that it makes of the one reply to its read.
fn take_one<D: Draws>(
    alloc: Global,
    plan: &Plan<D>,
    turn: u32,
    number: u32,
    pads: &Pads,
    read: &RelayedRead,
    client: &mut Client,
) -> Result<(), Memory>
    requires turn_in { turn < turn_count plan.now.script.now.shape }
    requires number_in { number < plan.now.script.now.shape.clients }
    requires read { IsRepliedUnder plan.now.script.now (D.book plan.now.draws.now)
        plan.now.history.now turn number pads.now read.now }
    requires client { ClientAsked plan.now.script.now (D.book plan.now.draws.now)
        plan.now.history.now turn number client.old }
    ensures { OnOk result (ClientRead plan.now.script.now (D.book plan.now.draws.now)
        plan.now.history.now turn number client.new) }
{
    let replies = replies_to(alloc, &plan.script.shape, pads, read)?;
    // what servers send are the replies to what was asked, so that only memory may be wanting
    let Ok(()) = client.take_replies(alloc, plan.draws, replies.as_slice()) else {
        return Err(Memory);
    };
    Ok(())
}

/// The replies to a read that its client makes of the one that server 1 gathers.
fn replies_to(
    alloc: Global,
    shape: &Shape,
    pads: &Pads,
    read: &RelayedRead,
) -> Result<Vec<Bytes>, Memory>
    requires one_shape { pads.now.shape ≡ shape.now }
    requires counted { length read.now.replies.items ≡ shape.now.servers }
    requires sized { AllByRecursion (λ p. HasHalves (width shape.now) (halves_of p))
        read.now.replies.items }
    ensures { IfOk result (λ replies. replies.items
        ≡ reply_frames_from shape.now pads.now.pads (gathered_part read.now.replies.items)) }
{
    // all servers reply to one read, so that only memory may be wanting
    let Ok(joined) = gather(alloc, read.replies.as_slice()) else {
        return Err(Memory);
    };
    let mut replies = Vec::new(alloc);
    replies_for(shape, &joined, pads, &mut replies)?;
    Ok(replies)
}
