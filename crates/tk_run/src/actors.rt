ghost use Rattle.std.specs.Prelude.{◌≡◌, ◌+◌, ◌<◌, ◌≤◌, All, length, OnOk};
ghost use Rattle.tk_shape.specs.Lengths.{turn_count};
ghost use Rattle.tk_schedule.specs.Schedule.{is_closing, phases_over};
ghost use Rattle.tk_cluster.specs.Clusters.{Each};
ghost use Rattle.tk_cluster.specs.Passes.{Learns, ReadsOnly};
ghost use Rattle.tk_run.specs.Acting.{IsReadyServer, Acted};
ghost use Rattle.tk_run.specs.Ticks.{AllBy};

use crate::pinned_write::PinnedWrite;
use crate::ticks::{Actor, Clerk, serve_with};
use std::alloc::AllocGlobal;
use std::sync::Wait;
use std::thread::Threads;
use tk_cluster::{Cluster, Pass, Publisher, Told};
use tk_io::Gate;
use tk_order::Naming;
use tk_shape::Memory;

/// What all who act in a turn share: the cluster, the gate that they come to, and which turn it is.
#[derive(Drop)]
pub(crate) struct Cue<'a, B: Naming, G: Gate> {
    pub cluster: &'a Cluster<B>,
    pub gate: &'a G,
    pub turn: u32,
    /// The greatest epoch that a client may read in this turn.
    pub most: u32,
    /// Whether it closes a phase.
    pub closing: bool,
    /// The publisher's number at the gate, which is after those of the clients.
    pub herald: u32,
    pub ghost turn_in: { turn < turn_count B.shape },
    pub ghost most_is: { most ≡ phases_over B.shape (turn + 1) },
    pub ghost closes: { closing ≡ is_closing B.shape turn },
}

/// What lies on a client's desk in a turn: its number, the frame of its write, and what it has from
/// the turn once it is over.
#[derive(Drop)]
pub(crate) struct Desk {
    pub client: u32,
    pub frame: Vec<u8>,
    pub deed: Option<PinnedWrite>,
}

/// The publisher, with what it told in this turn.
pub(crate) struct Herald<B: Naming> {
    pub publisher: Publisher<B>,
    pub told: Option<Told>,
}

/// It writes, and then pins; it comes to the gate before and after.
impl<'a, B: Naming + Send + Sync, G: Gate> Clerk<Cue<'a, B, G>, Desk> for Pass<B> {
    ghost use Rattle.tk_run.specs.Acting.{IsReadyServer, WroteAndPinned};

    ghost able = { λ cue a. IsReadyServer B.shape cue.most a };

    ghost fits = { λ cue d. Unit {0} };

    ghost made = { λ cue a d e b. WroteAndPinned B.shape cue.most a d e b };

    fn serve<R: Threads + Wait + Sync>(
        &mut self,
        rt: &R,
        cue: &Cue<'a, B, G>,
        desk: &mut Desk,
    ) -> bool {
        cue.gate.at(rt, desk.client, 2 * cue.turn);
        let Ok(position) = cue.cluster.write(rt, self, desk.frame.as_slice()) else {
            return false;
        };
        let Ok(set) = cue.cluster.pin(self, cue.most) else {
            return false;
        };
        cue.gate.at(rt, desk.client, 2 * cue.turn + 1);
        desk.deed = Some(PinnedWrite { position, set });
        true
    }
}

/// It publishes where the turn closes a phase; it comes to the gate before and after.
impl<'a, B: Naming + Send + Sync, G: Gate> Actor<Cue<'a, B, G>> for Herald<B> {
    ghost use Rattle.std.specs.Prelude.{◌≤◌, length};
    ghost use Rattle.tk_run.specs.Acting.{Heralds};

    ghost ready = { λ cue h. length h.publisher.shown ≤ B.shape.phases };

    ghost did = { λ cue h k. Heralds B.shape cue.closing h.publisher k.told k.publisher };

    fn act<R: Threads + Wait + Sync + AllocGlobal>(&mut self, rt: &R, cue: &Cue<'a, B, G>) -> bool {
        cue.gate.at(rt, cue.herald, 2 * cue.turn);
        if !cue.closing {
            self.told = None;
            cue.gate.at(rt, cue.herald, 2 * cue.turn + 1);
            return true;
        }
        let Ok(told) = cue.cluster.publish(rt, &mut self.publisher) else {
            return false;
        };
        cue.gate.at(rt, cue.herald, 2 * cue.turn + 1);
        self.told = Some(told);
        true
    }
}

/// Each pass takes in what was told.
fn learn_all<B: Naming>(
    cluster: &Cluster<B>,
    passes: &mut [Pass<B>],
    told: &mut Told,
) -> Result<(), Memory>
    requires { AllBy (λ a. a.reads.board ≡ told.old.board) passes.old }
    ensures told { told.new ≡ told.old }
    ensures ok { OnOk result (Each (ReadsOnly (λ r s. Learns r told.old s)) passes.old passes.new) }
{
    let Some((pass, others)) = passes.split_first_mut() else {
        return Ok(());
    };
    cluster.learn(pass, told)?;
    learn_all(cluster, others, told)?;
    Ok(())
}

/// All write and pin at once, and the publisher publishes where the turn closes a phase. Then each
/// pass takes in what was told, and all meet.
pub(crate) fn act<'a, B: Naming + Send + Sync, G: Gate, R: Threads + Wait + Sync + AllocGlobal>(
    rt: &R,
    cue: &Cue<'a, B, G>,
    passes: &mut [Pass<B>],
    desks: &mut [Desk],
    herald: &mut Herald<B>,
) -> Result<(), Memory>
    requires ready { All (IsReadyServer B.shape cue.now.most) passes.old }
    requires desks { length desks.old ≡ length passes.old }
    requires on { All (λ a. a.reads.board ≡ herald.old.publisher.board) passes.old }
    requires room { length herald.old.publisher.shown ≤ B.shape.phases }
    ensures { OnOk result (Acted B.shape cue.now.turn passes.old herald.old.publisher
        desks.old desks.new passes.new herald.new.publisher) }
{
    if !serve_with(rt, cue, herald, passes, desks) {
        return Err(Memory);
    }
    if let Some(told) = &mut herald.told {
        learn_all(cue.cluster, passes, told)?;
        cue.cluster.meet(passes, &mut herald.publisher)?;
        herald.publisher.stands();
        return Ok(());
    }
    cue.cluster.meet(passes, &mut herald.publisher)?;
    herald.publisher.stands();
    Ok(())
}
