ghost use Rattle.std.specs.Prelude.{◌≡◌, ◌<◌, ◌+◌, IfOk, OnOk};
ghost use Rattle.tk_shape.specs.Lengths.{turn_count};
ghost use Rattle.tk_schedule.specs.declared.history.History.{History};
ghost use Rattle.tk_words.specs.Words.{WordBook};
ghost use Rattle.tk_hostile.specs.Choice.{Choice};
ghost use Rattle.tk_hostile.specs.Walks.{AreSides, IsWalkBefore, IsWalkedTo, wrong_run};
ghost use Rattle.tk_hostile.specs.declared.sides.Sides.{Sides as Servers};

use crate::replies::Replies;
use crate::sides::Sides;
use crate::turn_reads::read_turn;
use std::alloc::Global;
use tk_frames::ReadFrame;
use tk_report::{Group, Ledger, Plan};
use tk_script::Script;
use tk_shape::Memory;
use tk_words::Draws;

/// A run that is gone through where all servers but the hidden one reply with chosen sums.
#[derive(Drop)]
pub(crate) struct Walk<'a, D: Draws> {
    pub plan: &'a Plan<'a, D>,
    pub replies: &'a Replies,
    pub sides: Sides,
    ghost one_shape: { replies.now.shape ≡ plan.now.script.now.shape },
    ghost sides_in: { AreSides plan.now.script.now.shape sides },
}

/// A run as far as it was gone through: the clients, what the entries leave for reads, and the read
/// frames that the seen server sees.
#[derive(Drop)]
pub(crate) struct Walked {
    pub group: Group,
    pub ledger: Ledger,
    pub reads: Vec<ReadFrame>,
}

/// A run gone through to its end.
pub(crate) fn walk_all<D: Draws>(alloc: Global, walk: &Walk<D>) -> Result<Walked, Memory>
    ensures { let run = wrong_run walk.now.plan.now walk.now.replies.now walk.now.sides in
        IfOk result (IsWalkedTo run (turn_count run.script.shape)) }
{
    let mut fold = open_fold(alloc, walk.plan.script)?;
    'turns: for turn in 0..walk.plan.script.shape.turns() {
        take_turn(alloc, walk, turn, &mut fold)?;
    }
    Ok(fold)
}

/// A run before its first turn.
fn open_fold(alloc: Global, script: &Script) -> Result<Walked, Memory>
    ensures { (b : WordBook) (H : History) (sides : Servers) (F : Choice)
        → IfOk result (IsWalkBefore script.now b H sides F 0) }
{
    Ok(Walked {
        group: Group::open(alloc, script)?,
        ledger: Ledger::open(alloc, &script.shape)?,
        reads: Vec::new(alloc),
    })
}

/// What happens in a turn: texts are said, the clients write in the history's order, and each reads
/// over the epoch that the history gives it.
fn take_turn<D: Draws>(
    alloc: Global,
    walk: &Walk<D>,
    turn: u32,
    fold: &mut Walked,
) -> Result<(), Memory>
    requires turn_in { turn < turn_count walk.now.plan.now.script.now.shape }
    requires fold { let run = wrong_run walk.now.plan.now walk.now.replies.now walk.now.sides in
        IsWalkedTo run turn fold.old }
    ensures { let run = wrong_run walk.now.plan.now walk.now.replies.now walk.now.sides in
        OnOk result (IsWalkedTo run (turn + 1) fold.new) }
{
    fold.group.write(alloc, walk.plan, turn, &mut fold.ledger)?;
    let clients = fold.group.clients.as_mut_slice();
    let mut reads = read_turn(alloc, walk, turn, &fold.ledger, clients)?;
    fold.reads.append(&mut reads)?;
    Ok(())
}
