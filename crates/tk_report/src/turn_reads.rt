ghost use Rattle.std.specs.Prelude.{◌+◌, ◌<◌, OnOk};
ghost use Rattle.tk_shape.specs.Lengths.{turn_count};
ghost use Rattle.tk_report.specs.Folds.{KeepsBefore, KnowsBefore, KnowBefore, IsOpenTo};

use crate::ledger::Ledger;
use crate::marked::Marked;
use crate::plan::Plan;
use std::alloc::Global;
use tk_client::Follower;
use tk_shape::Memory;
use tk_words::Draws;

/// For each client its read in a turn, over the epoch that the history gives it. A turn's own epoch
/// is there too. Where memory runs out nothing is promised of the clients.
pub fn read_turn<D: Draws>(
    alloc: Global,
    plan: &Plan<D>,
    turn: u32,
    ledger: &Ledger,
    followers: &mut [Follower],
) -> Result<(), Memory>
    requires turn_in { turn < turn_count plan.now.script.now.shape }
    requires ledger { KeepsBefore plan.now.script.now (D.book plan.now.draws.now)
        plan.now.history.now (turn + 1) ledger.now }
    requires followers { KnowBefore plan.now.script.now (D.book plan.now.draws.now)
        plan.now.history.now turn followers.old }
    ensures followers { OnOk result (KnowBefore plan.now.script.now (D.book plan.now.draws.now)
        plan.now.history.now (turn + 1) followers.new) }
{
    for (number, follower) in followers.iter_mut().enumerate() {
        read_one(alloc, plan, turn, number as u32, ledger, follower)?;
    }
    Ok(())
}

/// The read of a client in a turn.
fn read_one<D: Draws>(
    alloc: Global,
    plan: &Plan<D>,
    turn: u32,
    number: u32,
    ledger: &Ledger,
    follower: &mut Follower,
) -> Result<(), Memory>
    requires turn_in { turn < turn_count plan.now.script.now.shape }
    requires number_in { number < plan.now.script.now.shape.clients }
    requires ledger { KeepsBefore plan.now.script.now (D.book plan.now.draws.now)
        plan.now.history.now (turn + 1) ledger.now }
    requires follower { KnowsBefore plan.now.script.now (D.book plan.now.draws.now)
        plan.now.history.now turn number follower.old }
    ensures follower { OnOk result (KnowsBefore plan.now.script.now (D.book plan.now.draws.now)
        plan.now.history.now (turn + 1) number follower.new) }
{
    let due = plan.history.epoch(turn, number);
    let open = open_to(plan, turn, number, ledger);
    follower.look(alloc, plan.draws, due, open.filter(), open.blocks())
}

/// What lies open to a client's read in a turn: what the writes before the mark of its epoch left.
pub fn open_to<'a, D: Draws>(
    plan: &Plan<D>,
    turn: u32,
    number: u32,
    ledger: &'a Ledger,
) -> &'a Marked
    requires turn_in { turn < turn_count plan.now.script.now.shape }
    requires number_in { number < plan.now.script.now.shape.clients }
    requires ledger { KeepsBefore plan.now.script.now (D.book plan.now.draws.now)
        plan.now.history.now (turn + 1) ledger.now }
    ensures { IsOpenTo plan.now.script.now (D.book plan.now.draws.now) plan.now.history.now turn
        number result.now }
{
    ledger.epoch(plan.history.epoch(turn, number))
}
