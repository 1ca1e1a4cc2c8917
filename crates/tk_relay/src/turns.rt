ghost use Rattle.std.specs.Prelude.{◌≡◌, ◌≤◌, ◌<◌, ◌+◌, length, IfOk};
ghost use Rattle.std.specs.Prelude.{IfErr, OnOk, OnErr};
ghost use Rattle.std.specs.Arc.{arc_value};
ghost use Rattle.tk_io.specs.Content.{Rose};
ghost use Rattle.tk_io.specs.Tapped.{TapsKeepBut};
ghost use Rattle.tk_shape.specs.Lengths.{turn_count};
ghost use Rattle.tk_schedule.specs.Schedule.{epoch_at, serial_history};
ghost use Rattle.tk_relay.specs.Running.{ClientsWrote, ClientsRead, AreReplied, StandsAfter};
ghost use Rattle.tk_relay.specs.Running.{planned, turn_sights, IsBefore, IsAtEnd, IsWritten};
ghost use Rattle.tk_relay.specs.Running.{GainRun, GainRunFronts, GainTurn, GainTurnFronts};

use crate::RelayRunError;
use crate::asked_reads::{ask_all, pads_of_all};
use crate::frames_seen::{give_sights, sights_of};
use crate::relayed_read::RelayedRead;
use crate::serve_all::serve_all;
use crate::servers::{Servers, pin_all};
use crate::taken_replies::take_all;
use std::alloc::{AllocGlobal, Global};
use std::sync::{Arc, Wait};
use tk_client::Client;
use tk_cluster::EpochSet;
use tk_io::Taps;
use tk_order::Naming;
use tk_report::{Group, Plan};
use tk_shape::{Bytes, Memory};
use tk_words::Draws;

/// A run as it stands between two steps of it: the clients, and the servers.
pub(crate) struct Run<'a, B: Naming, R: Wait + AllocGlobal> {
    pub group: Group,
    pub servers: Servers<'a, B, R>,
}

/// All turns of a run, from the first.
pub(crate) fn take_all_turns<'a, B: Naming, R: Wait + AllocGlobal, D: Draws, T: Taps>(
    alloc: Global,
    plan: &Plan<D>,
    seeds: &[[u8; 32]],
    run: &mut Run<'a, B, R>,
    taps: &mut T,
) -> Result<(), RelayRunError>
    requires serial { plan.now.history.now ≡ serial_history plan.now.script.now.shape }
    requires seeds { length seeds.now ≡ plan.now.script.now.shape.clients }
    requires run { let r = run.old in IsBefore B.shape (planned plan.now) 0
        r.group r.servers.passes.items r.servers.publisher r.servers.taken }
    ensures run { let r = run.new in OnOk result (IsAtEnd B.shape (planned plan.now)
        r.group r.servers.passes.items r.servers.publisher r.servers.taken) }
    ensures ok { OnOk result
        (GainRun (planned plan.now) seeds.now (T.tap taps.old) (T.tap taps.new)) }
    ensures err { OnErr result
        (GainRunFronts (planned plan.now) seeds.now (T.tap taps.old) (T.tap taps.new)) }
    ensures others { TapsKeepBut plan.now.script.now.shape.servers
        (T.tap taps.old) (T.tap taps.new) }
    ensures rose { IfErr result (λ e. e ≡ RelayRunError.Taps
        → Rose (T.faults taps.old) (T.faults taps.new)) }
    ensures counts { T.faults taps.old ≤ T.faults taps.new }
{
    'turns: for turn in 0..plan.script.shape.turns() {
        take_turn(alloc, plan, seeds, turn, run, taps)?;
    }
    Ok(())
}

/// A turn, at the end of which each server's tap gains what the server saw in it.
fn take_turn<'a, B: Naming, R: Wait + AllocGlobal, D: Draws, T: Taps>(
    alloc: Global,
    plan: &Plan<D>,
    seeds: &[[u8; 32]],
    turn: u32,
    run: &mut Run<'a, B, R>,
    taps: &mut T,
) -> Result<(), RelayRunError>
    requires turn_in { turn < turn_count plan.now.script.now.shape }
    requires serial { plan.now.history.now ≡ serial_history plan.now.script.now.shape }
    requires seeds { length seeds.now ≡ plan.now.script.now.shape.clients }
    requires run { let r = run.old in IsBefore B.shape (planned plan.now) turn
        r.group r.servers.passes.items r.servers.publisher r.servers.taken }
    ensures run { let r = run.new in OnOk result (IsBefore B.shape (planned plan.now) (turn + 1)
        r.group r.servers.passes.items r.servers.publisher r.servers.taken) }
    ensures ok { OnOk result
        (GainTurn (planned plan.now) seeds.now turn (T.tap taps.old) (T.tap taps.new)) }
    ensures err { OnErr result
        (GainTurnFronts (planned plan.now) seeds.now turn (T.tap taps.old) (T.tap taps.new)) }
    ensures others { TapsKeepBut plan.now.script.now.shape.servers
        (T.tap taps.old) (T.tap taps.new) }
    ensures rose { IfErr result (λ e. e ≡ RelayRunError.Taps
        → Rose (T.faults taps.old) (T.faults taps.new)) }
    ensures counts { T.faults taps.old ≤ T.faults taps.new }
{
    let sights = meet(alloc, plan, seeds, turn, run)?;
    give_sights(sights.as_slice(), taps)?;
    Ok(())
}

/// What clients and servers do in a turn: texts are said, each client writes, and then all read. The answer is what each
/// server sees of it.
fn meet<'a, B: Naming, R: Wait + AllocGlobal, D: Draws>(
    alloc: Global,
    plan: &Plan<D>,
    seeds: &[[u8; 32]],
    turn: u32,
    run: &mut Run<'a, B, R>,
) -> Result<Vec<Bytes>, Memory>
    requires turn_in { turn < turn_count plan.now.script.now.shape }
    requires serial { plan.now.history.now ≡ serial_history plan.now.script.now.shape }
    requires seeds { length seeds.now ≡ plan.now.script.now.shape.clients }
    requires run { let r = run.old in IsBefore B.shape (planned plan.now) turn
        r.group r.servers.passes.items r.servers.publisher r.servers.taken }
    ensures run { let r = run.new in OnOk result (IsBefore B.shape (planned plan.now) (turn + 1)
        r.group r.servers.passes.items r.servers.publisher r.servers.taken) }
    ensures sights { IfOk result
        (λ sights. sights.items ≡ turn_sights (planned plan.now) seeds.now turn) }
{
    let set = write_turn(alloc, plan, turn, run)?;
    let clients = run.group.clients.as_mut_slice();
    let relayed = read_turn(alloc, plan, seeds, turn, clients, &set)?;
    let servers = plan.script.shape.servers;
    let entries = run.servers.seen.as_slice();
    let reads = relayed.as_slice();
    sights_of(alloc, servers, entries, reads)
}

/// All clients pin the set that is read in a turn, texts are said, and each client writes. Then all meet.
fn write_turn<'a, B: Naming, R: Wait + AllocGlobal, D: Draws>(
    alloc: Global,
    plan: &Plan<D>,
    turn: u32,
    run: &mut Run<'a, B, R>,
) -> Result<Arc<EpochSet>, Memory>
    requires turn_in { turn < turn_count plan.now.script.now.shape }
    requires serial { plan.now.history.now ≡ serial_history plan.now.script.now.shape }
    requires run { let r = run.old in IsBefore B.shape (planned plan.now) turn
        r.group r.servers.passes.items r.servers.publisher r.servers.taken }
    ensures { let r = run.new in IfOk result (λ set. IsWritten B.shape (planned plan.now) turn
        r.group r.servers.passes.items r.servers.publisher r.servers.taken (arc_value set)
        r.servers.seen.items) }
{
    run.servers.seen.clear();
    run.servers.publisher.stands();
    // all clients read the epoch of the turn's phase
    let epoch = plan.history.epoch(turn, 0);
    let cluster = run.servers.cluster;
    let passes = run.servers.passes.as_mut_slice();
    let set = pin_all(cluster, passes, epoch)?;
    run.group.write(alloc, plan, turn, &mut run.servers)?;
    run.servers.meet()?;
    Ok(set)
}

/// The reads of a turn: all clients ask, the servers reply to all reads at once, and the clients take the replies. The
/// answer is what went to and fro.
fn read_turn<D: Draws>(
    alloc: Global,
    plan: &Plan<D>,
    seeds: &[[u8; 32]],
    turn: u32,
    clients: &mut [Client],
    set: &EpochSet,
) -> Result<Vec<RelayedRead>, Memory>
    requires turn_in { turn < turn_count plan.now.script.now.shape }
    requires serial { plan.now.history.now ≡ serial_history plan.now.script.now.shape }
    requires seeds { length seeds.now ≡ plan.now.script.now.shape.clients }
    requires clients { ClientsWrote plan.now.script.now (D.book plan.now.draws.now)
        plan.now.history.now turn clients.old }
    requires set { StandsAfter plan.now.script.now (D.book plan.now.draws.now)
        plan.now.history.now turn set.now }
    requires epoch { set.now.number ≡ epoch_at plan.now.history.now turn 0 }
    ensures clients { OnOk result (ClientsRead plan.now.script.now (D.book plan.now.draws.now)
        plan.now.history.now turn clients.new) }
    ensures reads { IfOk result (λ reads. AreReplied plan.now.script.now
        (D.book plan.now.draws.now) seeds.now plan.now.history.now turn reads.items) }
{
    let shape = &plan.script.shape;
    let keyed = pads_of_all(alloc, shape, seeds, turn)?;
    let pads = keyed.as_slice();
    let mut reads = ask_all(alloc, plan, pads, turn, clients, set)?;
    serve_all(alloc, set, pads, reads.as_mut_slice())?;
    take_all(alloc, plan, turn, pads, reads.as_slice(), clients)?;
    Ok(reads)
}
