ghost use Rattle.std.specs.Prelude.{◌≡◌, ◌<◌, ◌+◌, length, IfOk, OnOk};
ghost use Rattle.tk_shape.specs.Lengths.{turn_count};
ghost use Rattle.tk_run.specs.Plays.{AllAre, ArePosed, OnceItWrote, OnceWritten, asked_at};
ghost use Rattle.tk_run.specs.Plays.{play_of, asks_at};
ghost use Rattle.tk_run.specs.Under.{AreAsking, AreIdle, AskedInTurn, IsIdle, asked_under};

use crate::frames::{Frames, deal, empty_rows};
use crate::server::Server;
use crate::turn_place::TurnPlace;
use std::alloc::Global;
use tk_client::Client;
use tk_report::Plan;
use tk_shape::{Bytes, Memory};
use tk_words::Draws;

/// The read frames of all clients in a turn: a list for each server, by client. What is worth
/// reading is told by the filter of the epoch that a client reads, as a server keeps it.
pub(crate) fn ask_all<D: Draws>(
    alloc: Global,
    plan: &Plan<D>,
    turn: u32,
    clients: &mut [Client],
    server: &Server,
) -> Result<Vec<Frames>, Memory>
    requires turn_in { turn < turn_count plan.now.script.now.shape }
    requires clients { AreIdle plan.now.script.now (turn + 1) clients.old }
    ensures clients { OnOk result
        (AreAsking plan.now.script.now plan.now.history.now turn clients.new) }
    ensures counted { IfOk result (λ rows. length rows.items ≡ plan.now.script.now.shape.servers) }
    ensures asked { let play = play_of plan.now in OnceWritten play turn server.now clients.old
        (λ V. OnOk result (AllAre play V asked_under turn clients.new)) }
    ensures posed { let play = play_of plan.now in OnceWritten play turn server.now clients.old
        (λ V. IfOk result (λ rows. ArePosed play V turn rows.items)) }
{
    let mut rows = empty_rows(alloc, plan.script.shape.servers)?;
    'asking: for (i, client) in clients.iter_mut().enumerate() {
        let spot = TurnPlace {
            turn,
            place: i as u32,
        };
        let frames = ask(alloc, plan, spot, client, server)?;
        deal(rows.as_mut_slice(), frames)?;
    }
    Ok(rows)
}

/// The read frames of a client in a turn, one for each server.
fn ask<D: Draws>(
    alloc: Global,
    plan: &Plan<D>,
    spot: TurnPlace,
    client: &mut Client,
    server: &Server,
) -> Result<Vec<Bytes>, Memory>
    requires turn_in { spot.turn < turn_count plan.now.script.now.shape }
    requires client_in { spot.place < plan.now.script.now.shape.clients }
    requires client { IsIdle plan.now.script.now (spot.turn + 1) spot.place client.old }
    ensures client { OnOk result
        (AskedInTurn plan.now.script.now plan.now.history.now spot.turn spot.place client.new) }
    ensures asked { let play = play_of plan.now in OnceItWrote play spot server.now client.old
        (λ V. OnOk result (client.new ≡ asked_at play V spot)) }
    ensures frames { let play = play_of plan.now in OnceItWrote play spot server.now client.old
        (λ V. IfOk result (λ frames. frames.items ≡ asks_at play V spot)) }
{
    let epoch = plan.history.epoch(spot.turn, spot.place);
    // a server keeps the last epoch and the one before it, so that only memory may be wanting
    let Ok(shown) = server.state.pin(epoch) else {
        return Err(Memory);
    };
    let mut frames = Vec::new(alloc);
    client.read_frames(
        alloc,
        plan.draws,
        spot.turn,
        epoch,
        shown.filter(),
        &mut frames,
    )?;
    Ok(frames)
}
