ghost use Rattle.std.specs.Prelude.{◌≡◌, ◌+◌, ◌≤◌, IfOk, IfErr, OnOk, OnErr};
ghost use Rattle.tk_io.specs.Content.{Rose};
ghost use Rattle.tk_io.specs.Tapped.{TapsKeepBut};
ghost use Rattle.tk_relay.specs.Relayed.{seeds_of};
ghost use Rattle.tk_relay.specs.Running.{serial_run, IsOutcomeOf, GainRun, GainRunFronts};

use crate::RelayRunError;
use crate::servers::Servers;
use crate::turns::{Run, take_all_turns};
use std::alloc::AllocGlobal;
use std::marker::Brand;
use std::sync::Wait;
use tk_cluster::Cluster;
use tk_io::Taps;
use tk_order::{Blank, Naming};
use tk_report::{Group, Outcome, Plan, displaced_in_order};
use tk_schedule::History;
use tk_script::Script;
use tk_words::{Draws, KeyedDraws};

/// What the serial run of a script leaves whose reads go by way of server 1, where the clients have
/// these seeds. What each server sees goes to its tap, turn after turn.
pub fn relayed<T: Taps, R: Wait + AllocGlobal>(
    rt: &R,
    script: &Script,
    draws: &KeyedDraws,
    seeds: &[[u8; 32]],
    taps: &mut T,
) -> Result<Outcome, RelayRunError>
    requires one_shape { ⟦<KeyedDraws as Draws>⟧.shape draws.now ≡ script.now.shape }
    requires own_seeds { seeds.now ≡ seeds_of (⟦<KeyedDraws as Draws>⟧.book draws.now) }
    ensures left { IfOk result
        (IsOutcomeOf (serial_run script.now (⟦<KeyedDraws as Draws>⟧.book draws.now))) }
    ensures ok { OnOk result (GainRun
        (serial_run script.now (⟦<KeyedDraws as Draws>⟧.book draws.now)) seeds.now
        (T.tap taps.old) (T.tap taps.new)) }
    ensures err { OnErr result (GainRunFronts
        (serial_run script.now (⟦<KeyedDraws as Draws>⟧.book draws.now)) seeds.now
        (T.tap taps.old) (T.tap taps.new)) }
    ensures others { TapsKeepBut script.now.shape.servers (T.tap taps.old) (T.tap taps.new) }
    ensures rose { IfErr result (λ e. e ≡ RelayRunError.Taps
        → Rose (T.faults taps.old) (T.faults taps.new)) }
    ensures counts { T.faults taps.old ≤ T.faults taps.new }
{
    let blank = Blank::new(rt.alloc(), &script.shape, script.shape.clients + 1)?;
    relayed_over::<Brand, T, R>(rt, script, draws, seeds, blank, taps)
}

/// The same run over the cluster of a blank.
fn relayed_over<B: Naming, T: Taps, R: Wait + AllocGlobal>(
    rt: &R,
    script: &Script,
    draws: &KeyedDraws,
    seeds: &[[u8; 32]],
    blank: Blank,
    taps: &mut T,
) -> Result<Outcome, RelayRunError>
    requires table { blank.table ≡ B.table }
    requires shape { blank.shape ≡ B.shape }
    requires seats { blank.seats ≡ B.shape.clients + 1 }
    requires same { script.now.shape ≡ B.shape }
    requires one_shape { ⟦<KeyedDraws as Draws>⟧.shape draws.now ≡ script.now.shape }
    requires own_seeds { seeds.now ≡ seeds_of (⟦<KeyedDraws as Draws>⟧.book draws.now) }
    ensures left { IfOk result
        (IsOutcomeOf (serial_run script.now (⟦<KeyedDraws as Draws>⟧.book draws.now))) }
    ensures ok { OnOk result (GainRun
        (serial_run script.now (⟦<KeyedDraws as Draws>⟧.book draws.now)) seeds.now
        (T.tap taps.old) (T.tap taps.new)) }
    ensures err { OnErr result (GainRunFronts
        (serial_run script.now (⟦<KeyedDraws as Draws>⟧.book draws.now)) seeds.now
        (T.tap taps.old) (T.tap taps.new)) }
    ensures others { TapsKeepBut script.now.shape.servers (T.tap taps.old) (T.tap taps.new) }
    ensures rose { IfErr result (λ e. e ≡ RelayRunError.Taps
        → Rose (T.faults taps.old) (T.faults taps.new)) }
    ensures counts { T.faults taps.old ≤ T.faults taps.new }
{
    let alloc = rt.alloc();
    let history = History::serial(alloc, &script.shape)?;
    let group = Group::open(alloc, script)?;
    let plan = Plan {
        script,
        draws,
        history: &history,
    };
    let (cluster, publisher, passes) = Cluster::<B>::open(rt, blank)?;
    let servers = Servers {
        rt,
        cluster: &cluster,
        passes,
        publisher,
        seen: Vec::new(alloc),
        taken: 0,
    };
    let mut run = Run { group, servers };
    let ran = take_all_turns(alloc, &plan, seeds, &mut run, taps);
    let Run { group, servers } = run;
    let Servers {
        rt: _rt,
        cluster: _cluster,
        passes,
        publisher,
        seen: _seen,
        taken: _taken,
    } = servers;
    if let Err(error) = ran {
        publisher.give_up(rt);
        return Err(error);
    }
    let closed = cluster.close(rt, passes, publisher)?;
    let displaced = displaced_in_order(alloc, &script.shape, closed.order().as_slice())?;
    Ok(Outcome::of(script, history, group.clients, displaced)?)
}
