ghost use Rattle.std.specs.Prelude.{◌≡◌, ◌<◌, ◌+◌, List, length, IfOk, OnOk};
ghost use Rattle.tk_shape.specs.declared.shape.Shape.{Shape};
ghost use Rattle.tk_shape.specs.Lengths.{turn_count};
ghost use Rattle.tk_frames.specs.declared.entry.Placed.{Placed};
ghost use Rattle.tk_run.specs.Plays.{AllAre, AreReplied, HasSeenTurn, HaveSeenTurn, OnceAsked};
ghost use Rattle.tk_run.specs.Plays.{OnceItIsAsked, OnceItIsReplied, OnceReplied, OnceTaken};
ghost use Rattle.tk_run.specs.Plays.{idle_at, played_before, play_of, replies_at};
ghost use Rattle.tk_run.specs.Servers.{AreReady, IsReadyServer};
ghost use Rattle.tk_run.specs.Under.{AreAsking, AreIdle, AskedInTurn, IsIdle, client_under};

use crate::asked_frames::ask_all;
use crate::frames::{Frames, deal, empty_rows};
use crate::server::Server;
use crate::turn_place::TurnPlace;
use std::alloc::Global;
use tk_client::Client;
use tk_report::Plan;
use tk_shape::{Bytes, Memory};
use tk_words::Draws;

/// The reads of a turn: all clients ask, each server answers what is for it in one pass, and the
/// clients take the replies.
pub(crate) fn read_turn<D: Draws>(
    alloc: Global,
    plan: &Plan<D>,
    turn: u32,
    clients: &mut [Client],
    servers: &mut [Server],
) -> Result<(), Memory>
    requires turn_in { turn < turn_count plan.now.script.now.shape }
    requires clients { AreIdle plan.now.script.now (turn + 1) clients.old }
    requires servers { let play = play_of plan.now in
        AreReady play.script.shape (played_before play (turn + 1)) servers.old }
    ensures clients { OnOk result (AreIdle plan.now.script.now (turn + 1) clients.new) }
    ensures servers { let play = play_of plan.now in
        OnOk result (AreReady play.script.shape (played_before play (turn + 1)) servers.new) }
    ensures clients_under { let play = play_of plan.now in OnceTaken play turn clients.old servers.old
        (λ V Es. OnOk result (AllAre play V client_under (turn + 1) clients.new)) }
    ensures servers_under { let play = play_of plan.now in OnceTaken play turn clients.old servers.old
        (λ V Es. OnOk result (HaveSeenTurn play V turn Es servers.new)) }
{
    let asked = ask_all(alloc, plan, turn, clients, &servers[0])?;
    let replies = answer_all(alloc, plan, turn, asked.as_slice(), servers)?;
    take_replies(alloc, plan, turn, replies.as_slice(), clients)
}

/// Each server answers the reads that are for it. The replies lie in a list for each client, by
/// server.
fn answer_all<D: Draws>(
    alloc: Global,
    plan: &Plan<D>,
    turn: u32,
    asked: &[Frames],
    servers: &mut [Server],
) -> Result<Vec<Frames>, Memory>
    requires turn_in { turn < turn_count plan.now.script.now.shape }
    requires asked { length asked.now ≡ plan.now.script.now.shape.servers }
    requires servers { let play = play_of plan.now in
        AreReady play.script.shape (played_before play (turn + 1)) servers.old }
    ensures counted { IfOk result (λ rows. length rows.items ≡ plan.now.script.now.shape.clients) }
    ensures servers { let play = play_of plan.now in
        OnOk result (AreReady play.script.shape (played_before play (turn + 1)) servers.new) }
    ensures replies { let play = play_of plan.now in OnceAsked play turn asked.now servers.old
        (λ V Es. IfOk result (λ rows. AreReplied play V turn rows.items)) }
    ensures servers_under { let play = play_of plan.now in OnceAsked play turn asked.now servers.old
        (λ V Es. OnOk result (HaveSeenTurn play V turn Es servers.new)) }
{
    let mut rows = empty_rows(alloc, plan.script.shape.clients)?;
    'answering: for (i, server) in servers.iter_mut().enumerate() {
        let spot = TurnPlace {
            turn,
            place: i as u32,
        };
        let replies = answer_one(alloc, plan, spot, asked[i].as_slice(), server)?;
        deal(rows.as_mut_slice(), replies)?;
    }
    Ok(rows)
}

/// A server answers the reads that are for it.
fn answer_one<D: Draws>(
    alloc: Global,
    plan: &Plan<D>,
    spot: TurnPlace,
    asked: &[Bytes],
    server: &mut Server,
) -> Result<Vec<Bytes>, Memory>
    requires turn_in { spot.turn < turn_count plan.now.script.now.shape }
    requires server_in { spot.place < plan.now.script.now.shape.servers }
    ensures ready { (shape : Shape) (E : List Placed) → IsReadyServer shape E server.old
        → OnOk result (IsReadyServer shape E server.new) }
    ensures replies { let play = play_of plan.now in OnceItIsAsked play spot asked.now server.old
        (λ V Es. IfOk result (λ replies. replies.items ≡ replies_at play V spot)) }
    ensures server { let play = play_of plan.now in OnceItIsAsked play spot asked.now server.old
        (λ V Es. OnOk result (HasSeenTurn play V spot Es server.new)) }
{
    let replies = server.answer(alloc, asked)?;
    Ok(replies)
}

/// Each client takes the replies to its read.
fn take_replies<D: Draws>(
    alloc: Global,
    plan: &Plan<D>,
    turn: u32,
    replies: &[Frames],
    clients: &mut [Client],
) -> Result<(), Memory>
    requires turn_in { turn < turn_count plan.now.script.now.shape }
    requires replies { length replies.now ≡ plan.now.script.now.shape.clients }
    requires clients { AreAsking plan.now.script.now plan.now.history.now turn clients.old }
    ensures clients { OnOk result (AreIdle plan.now.script.now (turn + 1) clients.new) }
    ensures clients_under { let play = play_of plan.now in OnceReplied play turn replies.now clients.old
        (λ V. OnOk result (AllAre play V client_under (turn + 1) clients.new)) }
{
    'taking: for (i, client) in clients.iter_mut().enumerate() {
        let spot = TurnPlace {
            turn,
            place: i as u32,
        };
        take_one(alloc, plan, spot, replies[i].as_slice(), client)?;
    }
    Ok(())
}

/// A client takes the replies to its read.
fn take_one<D: Draws>(
    alloc: Global,
    plan: &Plan<D>,
    spot: TurnPlace,
    replies: &[Bytes],
    client: &mut Client,
) -> Result<(), Memory>
    requires turn_in { spot.turn < turn_count plan.now.script.now.shape }
    requires client_in { spot.place < plan.now.script.now.shape.clients }
    requires client { AskedInTurn plan.now.script.now plan.now.history.now spot.turn spot.place client.old }
    ensures client { OnOk result (IsIdle plan.now.script.now (spot.turn + 1) spot.place client.new) }
    ensures client_under { let play = play_of plan.now in OnceItIsReplied play spot replies.now client.old
        (λ V. OnOk result (client.new ≡ idle_at play V spot)) }
{
    // (there is one of each server)
    if replies.len() != plan.script.shape.servers as usize {
        return Err(Memory);
    }
    // what servers send are the replies to what was asked, so that only memory may be wanting
    let Ok(()) = client.take_replies(alloc, plan.draws, replies) else {
        return Err(Memory);
    };
    Ok(())
}
