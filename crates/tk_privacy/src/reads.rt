ghost use Rattle.std.specs.Prelude.{◌≡◌, ℕ, ◌+◌, ◌<◌, ◌≤◌, IfOk, OnOk};
ghost use Rattle.tk_shape.specs.Lengths.{turn_count};
ghost use Rattle.tk_schedule.specs.declared.history.History.{History};
ghost use Rattle.tk_words.specs.Words.{WordBook};
ghost use Rattle.tk_privacy.specs.Reads.{IsFollowedBefore, reads_to_server};

use crate::asked::{ServerTurn, ask_turn};
use std::alloc::Global;
use tk_client::Follower;
use tk_frames::ReadFrame;
use tk_report::{Group, Ledger, Plan, open_followers, read_turn};
use tk_script::Script;
use tk_shape::Memory;
use tk_words::Draws;

/// A history as far as it was gone through: the clients that write, one for each who reads in its
/// place, what the entries leave for reads, and the read frames that one server sees.
#[derive(Drop)]
pub(crate) struct Followed {
    pub group: Group,
    pub followers: Vec<Follower>,
    pub ledger: Ledger,
    pub reads: Vec<ReadFrame>,
}

/// The read frames that a server sees of a run, turn after turn and in each by client.
pub(crate) fn all_reads<D: Draws>(
    alloc: Global,
    plan: &Plan<D>,
    server: u32,
) -> Result<Vec<ReadFrame>, Memory>
    requires low { 1 ≤ server }
    requires high { server ≤ plan.now.script.now.shape.servers }
    ensures { IfOk result (λ found. found.items ≡ reads_to_server plan.now.script.now
        (D.book plan.now.draws.now) plan.now.history.now server) }
{
    let mut fold = open_fold(alloc, plan.script)?;
    'turns: for turn in 0..plan.script.shape.turns() {
        take_turn(alloc, plan, ServerTurn { turn, server }, &mut fold)?;
    }
    Ok(fold.reads)
}

/// A history before its first turn.
fn open_fold(alloc: Global, script: &Script) -> Result<Followed, Memory>
    ensures { (b : WordBook) (H : History) (j : ℕ)
        → IfOk result (IsFollowedBefore script.now b H j 0) }
{
    Ok(Followed {
        group: Group::open(alloc, script)?,
        followers: open_followers(alloc, script)?,
        ledger: Ledger::open(alloc, &script.shape)?,
        reads: Vec::new(alloc),
    })
}

/// What happens in a turn: texts are said, the clients write in the history's order, and for each a
/// read is made over the epoch that the history gives it.
fn take_turn<D: Draws>(
    alloc: Global,
    plan: &Plan<D>,
    spot: ServerTurn,
    fold: &mut Followed,
) -> Result<(), Memory>
    requires turn_in { spot.turn < turn_count plan.now.script.now.shape }
    requires low { 1 ≤ spot.server }
    requires high { spot.server ≤ plan.now.script.now.shape.servers }
    requires fold { IsFollowedBefore plan.now.script.now (D.book plan.now.draws.now)
        plan.now.history.now spot.server spot.turn fold.old }
    ensures { OnOk result (IsFollowedBefore plan.now.script.now (D.book plan.now.draws.now)
        plan.now.history.now spot.server (spot.turn + 1) fold.new) }
{
    fold.group.write(alloc, plan, spot.turn, &mut fold.ledger)?;
    let followers = fold.followers.as_mut_slice();
    let mut asked = ask_turn(alloc, plan, spot, &fold.ledger, followers)?;
    read_turn(alloc, plan, spot.turn, &fold.ledger, followers)?;
    fold.reads.append(&mut asked)?;
    Ok(())
}
