ghost use Rattle.std.specs.Prelude.{◌≡◌, ◌+◌, ◌<◌, ◌≤◌, IfOk, OnOk};
ghost use Rattle.tk_shape.specs.Lengths.{turn_count};
ghost use Rattle.tk_report.specs.Folds.{KeepsBefore, KnowBefore, KnowsBefore};
ghost use Rattle.tk_privacy.specs.Reads.{read_to_server, reads_to_server_at};

use std::alloc::Global;
use tk_client::Follower;
use tk_frames::ReadFrame;
use tk_report::{Ledger, Plan, open_to};
use tk_shape::Memory;
use tk_words::Draws;

/// A turn, and a server that sees its reads.
#[derive(Clone, Copy, Debug)]
pub(crate) struct ServerTurn {
    pub turn: u32,
    pub server: u32,
}

/// The read frames that a server sees in a turn, by client.
pub(crate) fn ask_turn<D: Draws>(
    alloc: Global,
    plan: &Plan<D>,
    spot: ServerTurn,
    ledger: &Ledger,
    followers: &mut [Follower],
) -> Result<Vec<ReadFrame>, Memory>
    requires turn_in { spot.turn < turn_count plan.now.script.now.shape }
    requires low { 1 ≤ spot.server }
    requires high { spot.server ≤ plan.now.script.now.shape.servers }
    requires ledger { KeepsBefore plan.now.script.now (D.book plan.now.draws.now)
        plan.now.history.now (spot.turn + 1) ledger.now }
    requires followers { KnowBefore plan.now.script.now (D.book plan.now.draws.now)
        plan.now.history.now spot.turn followers.old }
    ensures asked { IfOk result (λ found. found.items ≡ reads_to_server_at plan.now.script.now
        (D.book plan.now.draws.now) plan.now.history.now spot.server spot.turn) }
    ensures same { OnOk result (followers.new ≡ followers.old) }
{
    let mut reads = Vec::new(alloc);
    for (number, follower) in followers.iter_mut().enumerate() {
        reads.push(ask_one(alloc, plan, spot, number as u32, ledger, follower)?)?;
    }
    Ok(reads)
}

/// The read frame that a server sees of a client in a turn.
fn ask_one<D: Draws>(
    alloc: Global,
    plan: &Plan<D>,
    spot: ServerTurn,
    number: u32,
    ledger: &Ledger,
    follower: &mut Follower,
) -> Result<ReadFrame, Memory>
    requires turn_in { spot.turn < turn_count plan.now.script.now.shape }
    requires low { 1 ≤ spot.server }
    requires high { spot.server ≤ plan.now.script.now.shape.servers }
    requires number_in { number < plan.now.script.now.shape.clients }
    requires ledger { KeepsBefore plan.now.script.now (D.book plan.now.draws.now)
        plan.now.history.now (spot.turn + 1) ledger.now }
    requires follower { KnowsBefore plan.now.script.now (D.book plan.now.draws.now)
        plan.now.history.now spot.turn number follower.old }
    ensures read { IfOk result (λ r. r ≡ read_to_server plan.now.script.now
        (D.book plan.now.draws.now) plan.now.history.now spot.server spot.turn number) }
    ensures same { follower.new ≡ follower.old }
{
    let due = plan.history.epoch(spot.turn, number);
    let open = open_to(plan, spot.turn, number, ledger);
    let mut frames = follower.read_frames(
        alloc,
        plan.draws,
        number,
        spot.turn,
        due,
        open.filter(),
    )?;
    Ok(frames.swap_remove(spot.server as usize - 1))
}
