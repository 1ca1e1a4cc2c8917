ghost use Rattle.std.specs.Prelude.{◌+◌, ◌<◌, IfOk, OnOk};
ghost use Rattle.tk_shape.specs.Lengths.{turn_count};
ghost use Rattle.tk_schedule.specs.declared.history.History.{History};
ghost use Rattle.tk_words.specs.Words.{WordBook, words_of};
ghost use Rattle.tk_report.specs.Clients.{AreClientsAtEnd};
ghost use Rattle.tk_report.specs.Folds.{IsFoldBefore, KeepsBefore, clients_of};

use crate::group::Group;
use crate::ledger::Ledger;
use crate::opened::open_followers;
use crate::plan::Plan;
use crate::turn_reads::read_turn;
use std::alloc::Global;
use tk_client::Follower;
use tk_script::Script;
use tk_shape::Memory;
use tk_words::Draws;

/// A history as far as it was gone through: the clients that write, one for each who reads in its
/// place, and what the entries leave for reads.
#[derive(Drop)]
pub(crate) struct Fold {
    pub group: Group,
    pub followers: Vec<Follower>,
    pub ledger: Ledger,
}

/// A history gone through to its end.
pub(crate) fn fold_all<D: Draws>(alloc: Global, plan: &Plan<D>) -> Result<Fold, Memory>
    ensures clients { let S = plan.now.script.now in IfOk result (λ fold. AreClientsAtEnd S
        (words_of S.shape (D.book plan.now.draws.now)) plan.now.history.now (clients_of fold)) }
    ensures ledger { let S = plan.now.script.now in IfOk result (λ fold. KeepsBefore S
        (D.book plan.now.draws.now) plan.now.history.now (turn_count S.shape) fold.ledger) }
{
    let mut fold = open_fold(alloc, plan.script)?;
    'turns: for turn in 0..plan.script.shape.turns() {
        take_turn(alloc, plan, turn, &mut fold)?;
    }
    Ok(fold)
}

/// A history before its first turn.
fn open_fold(alloc: Global, script: &Script) -> Result<Fold, Memory>
    ensures { (b : WordBook) (H : History) → IfOk result (IsFoldBefore script.now b H 0) }
{
    Ok(Fold {
        group: Group::open(alloc, script)?,
        followers: open_followers(alloc, script)?,
        ledger: Ledger::open(alloc, &script.shape)?,
    })
}

/// What happens in a turn: texts are said, the clients write in the history's order, and for each a
/// read is made over the epoch that the history gives it.
fn take_turn<D: Draws>(
    alloc: Global,
    plan: &Plan<D>,
    turn: u32,
    fold: &mut Fold,
) -> Result<(), Memory>
    requires turn_in { turn < turn_count plan.now.script.now.shape }
    requires fold { IsFoldBefore plan.now.script.now (D.book plan.now.draws.now)
        plan.now.history.now turn fold.old }
    ensures { OnOk result (IsFoldBefore plan.now.script.now (D.book plan.now.draws.now)
        plan.now.history.now (turn + 1) fold.new) }
{
    fold.group.write(alloc, plan, turn, &mut fold.ledger)?;
    let followers = fold.followers.as_mut_slice();
    read_turn(alloc, plan, turn, &fold.ledger, followers)?;
    Ok(())
}
