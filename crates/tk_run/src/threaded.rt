ghost use Rattle.std.specs.Prelude.{◌≡◌, ◌≤◌, ◌+◌, IfErr};
ghost use Rattle.tk_io.specs.Content.{Rose};
ghost use Rattle.tk_run.specs.Threads.{CameAbout, CameAboutOver};

use crate::actors::Herald;
use crate::closed_run::ClosedRun;
use crate::course::{Course, run_turns};
use crate::crew::Crew;
use crate::run_error::RunError;
use crate::stage::Stage;
use crate::sums::{OwnSums, Sums};
use std::alloc::AllocGlobal;
use std::marker::Brand;
use std::sync::Wait;
use std::thread::Threads;
use tk_cluster::{Closed, Cluster};
use tk_io::{Gate, Taps};
use tk_order::{Blank, Naming};
use tk_report::{Group, Outcome, displaced_in_order};
use tk_schedule::History;
use tk_script::Script;
use tk_words::Draws;

/// What a run of a script leaves in which the clients and the publisher act at once, and what its
/// cluster had. However they interleave, each server's tap gains what the server sees of the
/// history that comes about. Several servers answer at once, each the reads of an epoch in one
/// batch, and all share so many workers. With several shards each server's blocks are divided into
/// so many ranges, which its workers share; else they share the reads.
pub fn threads<D: Draws, T: Taps, G: Gate, R: Threads + Wait + Sync + AllocGlobal>(
    rt: &R,
    script: &Script,
    draws: &D,
    taps: &mut T,
    gate: &G,
    workers: u32,
    shards: u32,
) -> Result<(Outcome, Closed), RunError>
    requires one_shape { D.shape draws.now ≡ script.now.shape }
    requires workers { (1 ≤ workers) × (workers ≤ 64) }
    requires shards { (1 ≤ shards) × (shards ≤ 64) }
    ensures run { CameAbout script.now (D.book draws.now) result
        (T.tap taps.old) (T.tap taps.new) }
    ensures rose { IfErr result (λ e. e ≡ RunError.Taps
        → Rose (T.faults taps.old) (T.faults taps.new)) }
    ensures counts { T.faults taps.old ≤ T.faults taps.new }
{
    let closed_run = threads_by(rt, script, draws, taps, gate, workers, shards, &OwnSums)?;
    let ClosedRun {
        history,
        clients,
        displaced,
        closed,
    } = closed_run;
    let outcome = Outcome::of(script, history, clients, displaced)?;
    Ok((outcome, closed))
}

/// The same run where this makes the sums over the ranges, over so many even ones and over no others.
/// Whatever it makes, the servers reply that, and the clients go on from it.
pub fn threads_by<D: Draws, T: Taps, G: Gate, A: Sums, R: Threads + Wait + Sync + AllocGlobal>(
    rt: &R,
    script: &Script,
    draws: &D,
    taps: &mut T,
    gate: &G,
    workers: u32,
    shards: u32,
    sums: &A,
) -> Result<ClosedRun, RunError>
    requires one_shape { D.shape draws.now ≡ script.now.shape }
    requires workers { (1 ≤ workers) × (workers ≤ 64) }
    requires shards { (1 ≤ shards) × (shards ≤ 64) }
    ensures run { CameAboutOver script.now (D.book draws.now) shards (A.sum sums.now) result
        (T.tap taps.old) (T.tap taps.new) }
    ensures rose { IfErr result (λ e. e ≡ RunError.Taps
        → Rose (T.faults taps.old) (T.faults taps.new)) }
    ensures counts { T.faults taps.old ≤ T.faults taps.new }
{
    let blank = Blank::new(rt.alloc(), &script.shape, script.shape.clients + 1)?;
    let scene = Scene {
        script,
        draws,
        gate,
        sums,
        crew: Crew { workers, shards },
    };
    run_over::<Brand, D, T, G, A, R>(rt, &scene, blank, taps)
}

/// What a run of threads goes by.
#[derive(Drop)]
struct Scene<'a, D: Draws, G: Gate, A: Sums> {
    script: &'a Script,
    draws: &'a D,
    gate: &'a G,
    sums: &'a A,
    crew: Crew,
    ghost one_shape: { D.shape draws.now ≡ script.now.shape },
}

/// A run over the cluster of a blank.
fn run_over<
    'a,
    B: Naming + Send + Sync,
    D: Draws,
    T: Taps,
    G: Gate,
    A: Sums,
    R: Threads + Wait + Sync + AllocGlobal,
>(rt: &R, scene: &Scene<'a, D, G, A>, blank: Blank, taps: &mut T) -> Result<ClosedRun, RunError>
    requires table { blank.table ≡ B.table }
    requires shape { blank.shape ≡ B.shape }
    requires same { scene.now.script.now.shape ≡ B.shape }
    requires seats { blank.seats ≡ scene.now.script.now.shape.clients + 1 }
    ensures run { let scene = scene.now in
        CameAboutOver scene.script.now (D.book scene.draws.now) scene.crew.shards
        (A.sum scene.sums.now) result (T.tap taps.old) (T.tap taps.new) }
    ensures rose { IfErr result (λ e. e ≡ RunError.Taps
        → Rose (T.faults taps.old) (T.faults taps.new)) }
    ensures counts { T.faults taps.old ≤ T.faults taps.new }
{
    let group = Group::open(rt.alloc(), scene.script)?;
    let (cluster, publisher, passes) = Cluster::<B>::open(rt, blank)?;
    let mut course = Course {
        turns: Vec::new(rt.alloc()),
        group,
        passes,
        herald: Herald {
            publisher,
            told: None,
        },
        kept: Vec::new(rt.alloc()),
    };
    let stage = Stage {
        script: scene.script,
        draws: scene.draws,
        gate: scene.gate,
        sums: scene.sums,
        cluster: &cluster,
        crew: scene.crew,
    };
    let ran = run_turns(rt, &stage, &mut course, taps);
    let Course {
        turns,
        group,
        passes,
        herald,
        kept: _kept,
    } = course;
    let Herald {
        publisher,
        told: _told,
    } = herald;
    if let Err(error) = ran {
        publisher.give_up(rt);
        return Err(error);
    }
    let closed = cluster.close(rt, passes, publisher)?;
    let order = closed.order().as_slice();
    let displaced = displaced_in_order(rt.alloc(), &scene.script.shape, order)?;
    let history = History::from_turns(turns);
    let Group { said: _, clients } = group;
    Ok(ClosedRun {
        history,
        clients,
        displaced,
        closed,
    })
}
