ghost use Rattle.std.specs.Prelude.{◌≡◌, ◌≤◌, ◌++◌, ◌∷◌, [], IfOk, IfErr, OnOk, OnErr};
ghost use Rattle.tk_io.specs.Content.{Rose};
ghost use Rattle.tk_io.specs.Tapped.{TapsGain, TapsGainFronts, TapsKeepBut};
ghost use Rattle.tk_schedule.specs.Schedule.{IsLegal, serial_history};
ghost use Rattle.tk_words.specs.Words.{words_of};
ghost use Rattle.tk_report.specs.Outcomes.{IsLeftBy};
ghost use Rattle.tk_run.specs.Plays.{serial_sight};
ghost use Rattle.tk_run.specs.Resumption.{AcceptedSince, AllAccept, EndsAnew, GainsAnew};
ghost use Rattle.tk_run.specs.Resumption.{FrontsAnew, IfRefused, IfTapFails, RefusedSince};
ghost use Rattle.tk_run.specs.Resumption.{due_in, kept_in_all, resumed_after, resumed_at, serial_saved};
ghost use Rattle.tk_run.specs.Resumption.{turns_in};

use crate::ended::Ended;
use crate::keeper::{Keeper, Shelf};
use crate::resume_error::{ResumeError, run_error};
use crate::run_error::RunError;
use crate::turns::take_turns;
use std::alloc::Global;
use tk_io::Taps;
use tk_report::{Outcome, Plan};
use tk_schedule::History;
use tk_script::Script;
use tk_words::Draws;

/// What the serial run of a script leaves. What each server sees goes to its tap, turn after turn.
pub fn serial<D: Draws, T: Taps>(
    alloc: Global,
    script: &Script,
    draws: &D,
    taps: &mut T,
) -> Result<Outcome, RunError>
    requires one_shape { D.shape draws.now ≡ script.now.shape }
    ensures left { let words = words_of script.now.shape (D.book draws.now) in
        IfOk result (IsLeftBy script.now words (serial_history script.now.shape)) }
    ensures ok { OnOk result (TapsGain script.now.shape.servers
        (serial_sight script.now (D.book draws.now)) (T.tap taps.old) (T.tap taps.new)) }
    ensures err { OnErr result (TapsGainFronts script.now.shape.servers
        (serial_sight script.now (D.book draws.now)) (T.tap taps.old) (T.tap taps.new)) }
    ensures others { TapsKeepBut script.now.shape.servers (T.tap taps.old) (T.tap taps.new) }
    ensures rose { IfErr result (λ e. e ≡ RunError.Taps
        → Rose (T.faults taps.old) (T.faults taps.new)) }
    ensures counts { T.faults taps.old ≤ T.faults taps.new }
{
    let history = History::serial(alloc, &script.shape)?;
    match run_turns(
        alloc,
        script,
        draws,
        &history,
        taps,
        None,
        &mut Shelf::new(alloc),
    ) {
        Ok(end) => Ok(Outcome::of(script, history, end.clients, end.displaced)?),
        Err(e) => Err(run_error(e)),
    }
}

/// The same run, in which each replica is made anew from server 1's checkpoint: once the turn in
/// which mark `epoch` is ordered has ended, or before any turn for 0.
pub fn resumed<D: Draws, T: Taps>(
    alloc: Global,
    script: &Script,
    draws: &D,
    taps: &mut T,
    epoch: u32,
) -> Result<Outcome, RunError>
    requires one_shape { D.shape draws.now ≡ script.now.shape }
    requires within { epoch ≤ script.now.shape.phases }
    ensures left { let words = words_of script.now.shape (D.book draws.now) in
        IfOk result (IsLeftBy script.now words (serial_history script.now.shape)) }
    ensures ok { OnOk result (TapsGain script.now.shape.servers
        (serial_sight script.now (D.book draws.now)) (T.tap taps.old) (T.tap taps.new)) }
    ensures err { OnErr result (TapsGainFronts script.now.shape.servers
        (serial_sight script.now (D.book draws.now)) (T.tap taps.old) (T.tap taps.new)) }
    ensures others { TapsKeepBut script.now.shape.servers (T.tap taps.old) (T.tap taps.new) }
    ensures rose { IfErr result (λ e. e ≡ RunError.Taps
        → Rose (T.faults taps.old) (T.faults taps.new)) }
    ensures counts { T.faults taps.old ≤ T.faults taps.new }
{
    resumed_on(alloc, script, draws, taps, epoch, &mut Shelf::new(alloc))
}

/// The same, where the checkpoint is laid on this shelf, behind what lies there.
pub fn resumed_on<D: Draws, T: Taps>(
    alloc: Global,
    script: &Script,
    draws: &D,
    taps: &mut T,
    epoch: u32,
    shelf: &mut Shelf,
) -> Result<Outcome, RunError>
    requires one_shape { D.shape draws.now ≡ script.now.shape }
    requires within { epoch ≤ script.now.shape.phases }
    ensures kept { OnOk result (shelf.new.list.items ≡ shelf.old.list.items
        ++ serial_saved script.now (D.book draws.now) epoch ∷ []) }
    ensures left { let words = words_of script.now.shape (D.book draws.now) in
        IfOk result (IsLeftBy script.now words (serial_history script.now.shape)) }
    ensures ok { OnOk result (TapsGain script.now.shape.servers
        (serial_sight script.now (D.book draws.now)) (T.tap taps.old) (T.tap taps.new)) }
    ensures err { OnErr result (TapsGainFronts script.now.shape.servers
        (serial_sight script.now (D.book draws.now)) (T.tap taps.old) (T.tap taps.new)) }
    ensures others { TapsKeepBut script.now.shape.servers (T.tap taps.old) (T.tap taps.new) }
    ensures rose { IfErr result (λ e. e ≡ RunError.Taps
        → Rose (T.faults taps.old) (T.faults taps.new)) }
    ensures counts { T.faults taps.old ≤ T.faults taps.new }
{
    let history = History::serial(alloc, &script.shape)?;
    match resumed_by(alloc, script, draws, taps, epoch, shelf) {
        Ok(end) => Ok(Outcome::of(script, history, end.clients, end.displaced)?),
        Err(e) => Err(run_error(e)),
    }
}

/// The same, where this keeper keeps the checkpoint in between: server 1's at the epoch, and nothing
/// else. Each server begins anew from what the keeper gives it: from the checkpoint of other entries
/// it goes on as if those had come. Exactly where that isn't sound, or not of as many entries and
/// marks as the server has, the run ends with Refused, unless memory runs out.
pub fn resumed_by<D: Draws, T: Taps, K: Keeper>(
    alloc: Global,
    script: &Script,
    draws: &D,
    taps: &mut T,
    epoch: u32,
    keeper: &mut K,
) -> Result<Ended, ResumeError>
    requires one_shape { D.shape draws.now ≡ script.now.shape }
    requires within { epoch ≤ script.now.shape.phases }
    ensures kept { OnOk result (K.kept keeper.new ≡ K.kept keeper.old
        ++ serial_saved script.now (D.book draws.now) epoch ∷ []) }
    ensures accepted { OnOk result (AllAccept (resumed_after script.now (D.book draws.now) epoch)
        (K.gives keeper.new)) }
    ensures refused { IfRefused result (RefusedSince
        (resumed_after script.now (D.book draws.now) epoch)
        (K.kept keeper.old) K.kept K.gives keeper.new) }
    ensures failed { IfTapFails result (AcceptedSince
        (resumed_after script.now (D.book draws.now) epoch)
        (K.kept keeper.old) K.kept K.gives keeper.new) }
    ensures left { EndsAnew (resumed_after script.now (D.book draws.now) epoch)
        (K.kept keeper.old) K.kept K.gives keeper.new result }
    ensures ok { GainsAnew (resumed_after script.now (D.book draws.now) epoch)
        (K.kept keeper.old) K.kept K.gives keeper.new result T.tap taps.old taps.new }
    ensures err { FrontsAnew (resumed_after script.now (D.book draws.now) epoch)
        (K.kept keeper.old) K.kept K.gives keeper.new result T.tap taps.old taps.new }
    ensures others { TapsKeepBut script.now.shape.servers (T.tap taps.old) (T.tap taps.new) }
    ensures rose { IfErr result (λ e. e ≡ ResumeError.Taps
        → Rose (T.faults taps.old) (T.faults taps.new)) }
    ensures counts { T.faults taps.old ≤ T.faults taps.new }
{
    let due = epoch * script.shape.ticks;
    let history = History::serial(alloc, &script.shape)?;
    run_turns(alloc, script, draws, &history, taps, Some(due), keeper)
}

/// All turns. Where one is due, the servers begin anew before it.
fn run_turns<D: Draws, T: Taps, K: Keeper>(
    alloc: Global,
    script: &Script,
    draws: &D,
    history: &History,
    taps: &mut T,
    due: Option<u32>,
    keeper: &mut K,
) -> Result<Ended, ResumeError>
    requires one_shape { D.shape draws.now ≡ script.now.shape }
    requires legal { IsLegal script.now.shape history.now }
    ensures kept { let anew = resumed_at script.now (D.book draws.now) history.now due in
        OnOk result (K.kept keeper.new ≡ K.kept keeper.old ++ kept_in_all anew) }
    ensures accepted { let anew = resumed_at script.now (D.book draws.now) history.now due in
        due_in anew ≤ turns_in anew → OnOk result (AllAccept anew (K.gives keeper.new)) }
    ensures refused { IfRefused result (RefusedSince
        (resumed_at script.now (D.book draws.now) history.now due)
        (K.kept keeper.old) K.kept K.gives keeper.new) }
    ensures failed { IfTapFails result (AcceptedSince
        (resumed_at script.now (D.book draws.now) history.now due)
        (K.kept keeper.old) K.kept K.gives keeper.new) }
    ensures left { EndsAnew (resumed_at script.now (D.book draws.now) history.now due)
        (K.kept keeper.old) K.kept K.gives keeper.new result }
    ensures ok { GainsAnew (resumed_at script.now (D.book draws.now) history.now due)
        (K.kept keeper.old) K.kept K.gives keeper.new result T.tap taps.old taps.new }
    ensures err { FrontsAnew (resumed_at script.now (D.book draws.now) history.now due)
        (K.kept keeper.old) K.kept K.gives keeper.new result T.tap taps.old taps.new }
    ensures others { TapsKeepBut script.now.shape.servers (T.tap taps.old) (T.tap taps.new) }
    ensures rose { IfErr result (λ e. e ≡ ResumeError.Taps
        → Rose (T.faults taps.old) (T.faults taps.new)) }
    ensures counts { T.faults taps.old ≤ T.faults taps.new }
{
    let plan = Plan {
        script,
        draws,
        history,
    };
    let run = take_turns(alloc, &plan, due, keeper, taps)?;
    let displaced = run.servers.displaced();
    Ok(Ended {
        clients: run.group.clients,
        displaced,
    })
}
