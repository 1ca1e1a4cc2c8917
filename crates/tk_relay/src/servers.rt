//! The servers of a run whose reads are relayed: a cluster, in which one client after the other writes.
ghost use Rattle.std.specs.Prelude.{◌≡◌, List, Some, slice_get, IfOk, OnOk};
ghost use Rattle.std.specs.Arc.{arc_value};
ghost use Rattle.tk_frames.specs.declared.entry.Placed.{Placed as Entered};
ghost use Rattle.tk_frames.specs.InOrder.{mark_count};
ghost use Rattle.tk_cluster.specs.Clusters.{HaveMet};
ghost use Rattle.tk_cluster.specs.Tellings.{Telling};
ghost use Rattle.tk_relay.specs.Ordered.{HaveOrdered, OrderedAfter};

use crate::order::order;
use std::alloc::{AllocGlobal, Global};
use std::sync::{Arc, Wait};
use tk_cluster::{Cluster, EpochSet, Pass, Publisher};
use tk_frames::{Placed, encode_placed};
use tk_order::Naming;
use tk_report::Takes;
use tk_shape::Memory;

/// A cluster with the passes of its clients and its publisher, the frames of the entries of a turn, which all servers see,
/// and how many entries were ordered.
pub(crate) struct Servers<'a, B: Naming, R: Wait + AllocGlobal> {
    pub rt: &'a R,
    pub cluster: &'a Cluster<B>,
    pub passes: Vec<Pass<B>>,
    pub publisher: Publisher<B>,
    pub seen: Vec<u8>,
    pub taken: u64,
}

impl<'a, B: Naming, R: Wait + AllocGlobal> Servers<'a, B, R> {
    /// All passes and the publisher meet.
    pub(crate) fn meet(&mut self) -> Result<(), Memory>
        ensures met { HaveMet B.shape self.old.passes.items self.old.publisher self.new.passes.items
            self.new.publisher }
        ensures taken { self.new.taken ≡ self.old.taken }
        ensures seen { self.new.seen ≡ self.old.seen }
    {
        let cluster = self.cluster;
        let passes = self.passes.as_mut_slice();
        cluster.meet(passes, &mut self.publisher)
    }
}

impl<'a, B: Naming, R: Wait + AllocGlobal> Takes for Servers<'a, B, R> {
    ghost took = { λ was shape E F is.
        OrderedAfter B.shape shape E F is.passes.items is.publisher is.taken is.seen.items };

    fn taken(&self) -> u64 {
        self.taken
    }

    fn take(&mut self, alloc: Global, placed: &Placed) -> Result<(), Memory> {
        encode_placed(placed, &mut self.seen)?;
        let rt = self.rt;
        let cluster = self.cluster;
        let passes = self.passes.as_mut_slice();
        order(rt, cluster, passes, &mut self.publisher, placed)?;
        self.taken = placed.position;
        Ok(())
    }

    ghost in_order = { λ was shape E F is have. have.ordered.order };
}

/// The set of a number, which all clients pin. It is the last one that is shown.
pub(crate) fn pin_all<B: Naming>(
    cluster: &Cluster<B>,
    passes: &mut [Pass<B>],
    number: u32,
) -> Result<Arc<EpochSet>, Memory>
    requires { (E : List Entered) × (p : Telling) × HaveOrdered B.shape E passes.old p
        × (number ≡ mark_count E) }
    ensures ordered { (E : List Entered) (p : Telling) → HaveOrdered B.shape E passes.old p
        → number ≡ mark_count E → OnOk result (HaveOrdered B.shape E passes.new p) }
    ensures set { (E : List Entered) (p : Telling) → HaveOrdered B.shape E passes.old p
        → number ≡ mark_count E
        → IfOk result (λ set. slice_get p.shown number ≡ Some (arc_value set)) }
{
    let mut pinned = None;
    for pass in passes.iter_mut() {
        pinned = Some(cluster.pin(pass, number)?);
    }
    // there is a client, so that only memory may be wanting
    let Some(set) = pinned else {
        return Err(Memory);
    };
    Ok(set)
}
