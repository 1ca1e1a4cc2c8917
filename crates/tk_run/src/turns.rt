ghost use Rattle.std.specs.Prelude.{◌≡◌, ◌≢◌, ◌≤◌, ◌<◌, ◌+◌, ◌++◌, IfOk, IfErr, OnOk, OnErr};
ghost use Rattle.tk_io.specs.Content.{Rose};
ghost use Rattle.tk_io.specs.Tapped.{TapsKeepBut};
ghost use Rattle.tk_shape.specs.Lengths.{turn_count};
ghost use Rattle.tk_schedule.specs.declared.history.History.{History};
ghost use Rattle.tk_words.specs.Words.{WordBook};
ghost use Rattle.tk_run.specs.Plays.{FromTurn, IsRunAfter, TapsGainTurn, TapsGainTurnFronts};
ghost use Rattle.tk_run.specs.Plays.{of_play, play_of};
ghost use Rattle.tk_run.specs.Resumption.{AcceptedSince, AllAccept, GainsAnew, FrontsAnew};
ghost use Rattle.tk_run.specs.Resumption.{GivenBy, GivenInAll, IfRefused, IfTapFails, InEachPlay};
ghost use Rattle.tk_run.specs.Resumption.{IsLastAnew, IsRunAnew, OnceOpen, RefusedSince, RunsAnew};
ghost use Rattle.tk_run.specs.Resumption.{TapsGainAnew, due_in, kept_by, kept_in_all, anew_of};
ghost use Rattle.tk_run.specs.Resumption.{turns_in};
ghost use Rattle.tk_run.specs.Servers.{nothing_seen};
ghost use Rattle.tk_run.specs.Under.{IsRunning, turn_under};

use crate::go_on::go_on_before;
use crate::keeper::Keeper;
use crate::resume_error::ResumeError;
use crate::run::Run;
use crate::servers::open_servers;
use crate::taps::give_all;
use crate::turn_reads::read_turn;
use std::alloc::Global;
use tk_io::Taps;
use tk_report::{Group, Plan};
use tk_script::Script;
use tk_shape::Memory;
use tk_words::Draws;

/// A run at its end, turn after turn. What each server sees goes to its tap at the end of each turn.
/// Where a turn is due, or the end behind the last, the servers begin anew before it.
pub(crate) fn take_turns<D: Draws, T: Taps, K: Keeper>(
    alloc: Global,
    plan: &Plan<D>,
    due: Option<u32>,
    keeper: &mut K,
    taps: &mut T,
) -> Result<Run, ResumeError>
    ensures kept { let anew = anew_of plan.now due in
        OnOk result (K.kept keeper.new ≡ K.kept keeper.old ++ kept_in_all anew) }
    ensures accepted { let anew = anew_of plan.now due in
        due_in anew ≤ turns_in anew → OnOk result (AllAccept anew (K.gives keeper.new)) }
    ensures refused { let anew = anew_of plan.now due in
        IfRefused result (RefusedSince anew (K.kept keeper.old) K.kept K.gives keeper.new) }
    ensures failed { let anew = anew_of plan.now due in
        IfTapFails result (AcceptedSince anew (K.kept keeper.old) K.kept K.gives keeper.new) }
    ensures running { let S = plan.now.script.now in
        IfOk result (IsRunning S (D.book plan.now.draws.now) plan.now.history.now
        (turn_count S.shape)) }
    ensures run { let anew = anew_of plan.now due in
        RunsAnew anew (K.kept keeper.old) K.kept K.gives keeper.new result }
    ensures ok { let anew = anew_of plan.now due in
        GainsAnew anew (K.kept keeper.old) K.kept K.gives keeper.new result T.tap taps.old taps.new }
    ensures err { let anew = anew_of plan.now due in
        FrontsAnew anew (K.kept keeper.old) K.kept K.gives keeper.new
        result T.tap taps.old taps.new }
    ensures others { TapsKeepBut plan.now.script.now.shape.servers
        (T.tap taps.old) (T.tap taps.new) }
    ensures rose { IfErr result (λ e. e ≡ ResumeError.Taps
        → Rose (T.faults taps.old) (T.faults taps.new)) }
    ensures counts { T.faults taps.old ≤ T.faults taps.new }
{
    let mut run = open_run(alloc, plan.script, due, keeper)?;
    take_all_turns(alloc, plan, due, &mut run, keeper, taps)?;
    Ok(run)
}

/// A run before its first turn.
fn open_run<K: Keeper>(
    alloc: Global,
    script: &Script,
    due: Option<u32>,
    keeper: &mut K,
) -> Result<Run, ResumeError>
    ensures running { (b : WordBook) (H : History) → IfOk result (IsRunning script.now b H 0) }
    ensures kept { InEachPlay script.now due
        (λ anew. OnOk result (K.kept keeper.new ≡ K.kept keeper.old ++ kept_by anew 0)) }
    ensures accepted { InEachPlay script.now due
        (λ anew. due_in anew ≤ 0 → OnOk result (AllAccept anew (K.gives keeper.new))) }
    ensures refused { InEachPlay script.now due (λ anew. IfRefused result
        (RefusedSince anew (K.kept keeper.old) K.kept K.gives keeper.new)) }
    ensures run { InEachPlay script.now due (λ anew. GivenBy anew 0 (K.gives keeper.new)
        (λ given. IfOk result (IsRunAnew anew given 0))) }
    ensures not_taps { IfErr result (λ e. e ≢ ResumeError.Taps) }
{
    let group = Group::open(alloc, script)?;
    let mut servers = open_servers(alloc, &script.shape)?;
    go_on_before(alloc, &script.shape, due, 0, &mut servers, keeper)?;
    Ok(Run { group, servers })
}

/// All turns of a run, from the first. The servers are ready for each once the one before it is over.
fn take_all_turns<D: Draws, T: Taps, K: Keeper>(
    alloc: Global,
    plan: &Plan<D>,
    due: Option<u32>,
    run: &mut Run,
    keeper: &mut K,
    taps: &mut T,
) -> Result<(), ResumeError>
    requires running { IsRunning plan.now.script.now (D.book plan.now.draws.now)
        plan.now.history.now 0 run.old }
    requires accepted { let anew = anew_of plan.now due in
        due_in anew ≤ 0 → AllAccept anew (K.gives keeper.old) }
    requires run { let anew = anew_of plan.now due in
        GivenBy anew 0 (K.gives keeper.old) (λ given. IsRunAnew anew given 0 run.old) }
    ensures kept { let anew = anew_of plan.now due in
        OnceOpen anew (K.kept keeper.old)
        (λ first. OnOk result (K.kept keeper.new ≡ first ++ kept_in_all anew)) }
    ensures accepted { let anew = anew_of plan.now due in
        due_in anew ≤ turns_in anew → OnOk result (AllAccept anew (K.gives keeper.new)) }
    ensures refused { let anew = anew_of plan.now due in
        OnceOpen anew (K.kept keeper.old)
        (λ first. IfRefused result (RefusedSince anew first K.kept K.gives keeper.new)) }
    ensures failed { let anew = anew_of plan.now due in
        OnceOpen anew (K.kept keeper.old)
        (λ first. IfTapFails result (AcceptedSince anew first K.kept K.gives keeper.new)) }
    ensures running { let S = plan.now.script.now in
        OnOk result (IsRunning S (D.book plan.now.draws.now) plan.now.history.now
        (turn_count S.shape) run.new) }
    ensures run { let anew = anew_of plan.now due in
        GivenInAll anew (K.gives keeper.new)
        (λ given. OnOk result (IsLastAnew anew given run.new)) }
    ensures ok { let anew = anew_of plan.now due in
        GivenInAll anew (K.gives keeper.new)
        (λ given. OnOk result (TapsGainAnew anew given T.tap taps.old taps.new)) }
    ensures err { let anew = anew_of plan.now due in
        OnceOpen anew (K.kept keeper.old)
        (λ first. FrontsAnew anew first K.kept K.gives keeper.new
        result T.tap taps.old taps.new) }
    ensures others { TapsKeepBut plan.now.script.now.shape.servers
        (T.tap taps.old) (T.tap taps.new) }
    ensures rose { IfErr result (λ e. e ≡ ResumeError.Taps
        → Rose (T.faults taps.old) (T.faults taps.new)) }
    ensures counts { T.faults taps.old ≤ T.faults taps.new }
{
    'turns: for turn in 0..plan.script.shape.turns() {
        take_turn(alloc, plan, turn, run, taps)?;
        let next = turn + 1;
        go_on_before(
            alloc,
            &plan.script.shape,
            due,
            next,
            &mut run.servers,
            keeper,
        )?;
    }
    Ok(())
}

/// A turn, at the end of which each server's tap gains what the server saw in it.
fn take_turn<D: Draws, T: Taps>(
    alloc: Global,
    plan: &Plan<D>,
    turn: u32,
    run: &mut Run,
    taps: &mut T,
) -> Result<(), ResumeError>
    requires turn_in { turn < turn_count plan.now.script.now.shape }
    requires running { IsRunning plan.now.script.now (D.book plan.now.draws.now)
        plan.now.history.now turn run.old }
    ensures running { OnOk result (IsRunning plan.now.script.now (D.book plan.now.draws.now)
        plan.now.history.now (turn + 1) run.new) }
    ensures run { let play = play_of plan.now in FromTurn play turn run.old
        (λ V Es. OnOk result (IsRunAfter play V turn Es nothing_seen run.new)) }
    ensures ok { let play = play_of plan.now in FromTurn play turn run.old
        (λ V Es. OnOk result (TapsGainTurn play V turn T.tap taps.old taps.new)) }
    ensures err { let play = play_of plan.now in FromTurn play turn run.old
        (λ V Es. OnErr result (TapsGainTurnFronts play V turn T.tap taps.old taps.new)) }
    ensures others { TapsKeepBut plan.now.script.now.shape.servers
        (T.tap taps.old) (T.tap taps.new) }
    ensures rose { IfErr result (λ e. e ≡ ResumeError.Taps
        → Rose (T.faults taps.old) (T.faults taps.new)) }
    ensures counts { T.faults taps.old ≤ T.faults taps.new }
    ensures not_refused { IfErr result (λ e. e ≢ ResumeError.Refused) }
{
    meet(alloc, plan, turn, run)?;
    give_all(run.servers.list.as_mut_slice(), taps)?;
    Ok(())
}

/// What clients and servers do in a turn: texts are said, each client writes, and then all read.
fn meet<D: Draws>(alloc: Global, plan: &Plan<D>, turn: u32, run: &mut Run) -> Result<(), Memory>
    requires turn_in { turn < turn_count plan.now.script.now.shape }
    requires running { IsRunning plan.now.script.now (D.book plan.now.draws.now)
        plan.now.history.now turn run.old }
    ensures running { OnOk result (IsRunning plan.now.script.now (D.book plan.now.draws.now)
        plan.now.history.now (turn + 1) run.new) }
    ensures run { let play = play_of plan.now in FromTurn play turn run.old
        (λ V Es. OnOk result (IsRunAfter play V turn Es (of_play play turn_under V turn) run.new)) }
{
    run.group.write(alloc, plan, turn, &mut run.servers)?;
    let clients = run.group.clients.as_mut_slice();
    let servers = run.servers.list.as_mut_slice();
    read_turn(alloc, plan, turn, clients, servers)
}
