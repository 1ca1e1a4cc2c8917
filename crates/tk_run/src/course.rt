ghost use Rattle.std.specs.Prelude.{◌≡◌, ◌≤◌, ◌<◌, ◌+◌, length, IfOk, IfErr, OnOk};
ghost use mathlib.Core.List.{IsPrefix};
ghost use Rattle.tk_io.specs.Content.{Rose};
ghost use Rattle.tk_shape.specs.Lengths.{turn_count};
ghost use Rattle.tk_run.specs.Stages.{ActedOn, AreSightsOn, HasWrittenOn, IsCourseOn, RanOn};
ghost use Rattle.tk_run.specs.Stages.{TapsAfterRunOn, TapsAfterTurnOn};

use crate::actors::{Cue, Desk, Herald, act};
use crate::desks::{cleared, desks_for};
use crate::kept::Kept;
use crate::pinned_write::PinnedWrite;
use crate::run_error::RunError;
use crate::stage::Stage;
use crate::sums::Sums;
use crate::talk::{Round, talk_all};
use crate::tap_bytes::{entries_from, give_sights, sights_from};
use crate::turn_order::turn_from;
use std::alloc::AllocGlobal;
use std::sync::Wait;
use std::thread::Threads;
use tk_cluster::Pass;
use tk_frames::one_spelling;
use tk_io::{Gate, Taps};
use tk_order::Naming;
use tk_report::Group;
use tk_schedule::{TurnOrder, closes};
use tk_shape::{Bytes, Memory};
use tk_words::Draws;

/// A run of threads between two turns: how the turns so far came about, and the clients, their
/// passes and the publisher after them.
pub(crate) struct Course<B: Naming> {
    pub turns: Vec<TurnOrder>,
    pub group: Group,
    pub passes: Vec<Pass<B>>,
    pub herald: Herald<B>,
    /// The blocks in ranges that each server keeps.
    pub kept: Vec<Option<Kept>>,
}

/// All turns of a run, from the first.
pub(crate) fn run_turns<
    'a,
    B: Naming + Send + Sync,
    D: Draws,
    G: Gate,
    A: Sums,
    T: Taps,
    R: Threads + Wait + Sync + AllocGlobal,
>(
    rt: &R,
    stage: &Stage<'a, B, D, G, A>,
    course: &mut Course<B>,
    taps: &mut T,
) -> Result<(), RunError>
    requires { IsCourseOn stage.now 0 course.old }
    ensures course { OnOk result (IsCourseOn stage.now (turn_count stage.now.script.now.shape) course.new) }
    ensures taps { TapsAfterRunOn stage.now result course.new (T.tap taps.old) (T.tap taps.new) }
    ensures rose { IfErr result (λ e. e ≡ RunError.Taps
        → Rose (T.faults taps.old) (T.faults taps.new)) }
    ensures counts { T.faults taps.old ≤ T.faults taps.new }
{
    'turns: for turn in 0..stage.script.shape.turns() {
        run_turn(rt, stage, turn, course, taps)?;
    }
    Ok(())
}

/// A turn, at the end of which each server's tap gains what the server saw in it.
fn run_turn<
    'a,
    B: Naming + Send + Sync,
    D: Draws,
    G: Gate,
    A: Sums,
    T: Taps,
    R: Threads + Wait + Sync + AllocGlobal,
>(
    rt: &R,
    stage: &Stage<'a, B, D, G, A>,
    turn: u32,
    course: &mut Course<B>,
    taps: &mut T,
) -> Result<(), RunError>
    requires turn_in { turn < turn_count stage.now.script.now.shape }
    requires course { IsCourseOn stage.now turn course.old }
    ensures behind { OnOk result (IsPrefix course.old.turns.items course.new.turns.items) }
    ensures course { OnOk result (IsCourseOn stage.now (turn + 1) course.new) }
    ensures taps { TapsAfterTurnOn stage.now turn result course.old course.new
        (T.tap taps.old) (T.tap taps.new) }
    ensures rose { IfErr result (λ e. e ≡ RunError.Taps
        → Rose (T.faults taps.old) (T.faults taps.new)) }
    ensures counts { T.faults taps.old ≤ T.faults taps.new }
{
    let sights = play_turn(rt, stage, turn, course)?;
    give_sights(sights.as_slice(), taps)?;
    Ok(())
}

/// What each server saw of a turn: texts are said, all write and pin at once, and then all read at
/// once.
fn play_turn<
    'a,
    B: Naming + Send + Sync,
    D: Draws,
    G: Gate,
    A: Sums,
    R: Threads + Wait + Sync + AllocGlobal,
>(
    rt: &R,
    stage: &Stage<'a, B, D, G, A>,
    turn: u32,
    course: &mut Course<B>,
) -> Result<Vec<Bytes>, Memory>
    requires turn_in { turn < turn_count stage.now.script.now.shape }
    requires course { IsCourseOn stage.now turn course.old }
    ensures behind { OnOk result (IsPrefix course.old.turns.items course.new.turns.items) }
    ensures course { OnOk result (IsCourseOn stage.now (turn + 1) course.new) }
    ensures sights { IfOk result (λ v. AreSightsOn stage.now turn course.new v.items) }
{
    let (deeds, entries) = write_turn(rt, stage, turn, course)?;
    let servers = stage.script.shape.servers;
    let round = Round {
        turn,
        draws: stage.draws,
        sums: stage.sums,
        servers,
        crew: stage.crew,
    };
    let clients = &mut course.group.clients;
    let talks = talk_all(rt, &round, &mut course.kept, clients, deeds)?;
    sights_from(
        rt,
        servers,
        entries.as_slice(),
        talks.as_slice(),
        stage.crew.workers,
    )
}

/// What each client has from its part in a turn, and the frames of the turn's entries: texts are
/// said, and then all write and pin at once.
fn write_turn<
    'a,
    B: Naming + Send + Sync,
    D: Draws,
    G: Gate,
    A: Sums,
    R: Threads + Wait + Sync + AllocGlobal,
>(
    rt: &R,
    stage: &Stage<'a, B, D, G, A>,
    turn: u32,
    course: &mut Course<B>,
) -> Result<(Vec<PinnedWrite>, Vec<u8>), Memory>
    requires turn_in { turn < turn_count stage.now.script.now.shape }
    requires course { IsCourseOn stage.now turn course.old }
    ensures behind { OnOk result (IsPrefix course.old.turns.items course.new.turns.items) }
    ensures written { IfOk result
        (λ r. HasWrittenOn stage.now turn course.new r.0.items r.1.items) }
{
    let alloc = rt.alloc();
    let script = stage.script;
    one_spelling();
    course.group.say(alloc, script, turn)?;
    let clients = course.group.clients.as_mut_slice();
    let mut desks = desks_for(alloc, script, stage.draws, turn, clients)?;
    act_in(rt, stage, turn, course, desks.as_mut_slice())?;
    let (frames, deeds) = cleared(alloc, desks)?;
    let now = turn_from(alloc, &script.shape, turn, deeds.as_slice())?;
    let order = now.order.as_slice();
    let entries = entries_from(alloc, &script.shape, turn, order, frames.as_slice())?;
    course.turns.push(now)?;
    Ok((deeds, entries))
}

/// All write and pin in a turn at once, and then know of it.
fn act_in<
    'a,
    B: Naming + Send + Sync,
    D: Draws,
    G: Gate,
    A: Sums,
    R: Threads + Wait + Sync + AllocGlobal,
>(
    rt: &R,
    stage: &Stage<'a, B, D, G, A>,
    turn: u32,
    course: &mut Course<B>,
    desks: &mut [Desk],
) -> Result<(), Memory>
    requires turn_in { turn < turn_count stage.now.script.now.shape }
    requires counted { length desks.old ≡ length course.old.passes.items }
    requires ran { RanOn stage.now course.old }
    requires turns { length course.old.turns.items ≡ turn }
    ensures turns { course.new.turns.items ≡ course.old.turns.items }
    ensures group { course.new.group ≡ course.old.group }
    ensures acted { OnOk result
        (ActedOn stage.now turn course.old desks.old desks.new course.new) }
{
    let shape = &stage.script.shape;
    let cue = Cue {
        cluster: stage.cluster,
        gate: stage.gate,
        turn,
        most: (turn + 1) / shape.ticks,
        closing: closes(shape, turn),
        herald: shape.clients,
    };
    act(
        rt,
        &cue,
        course.passes.as_mut_slice(),
        desks,
        &mut course.herald,
    )
}
