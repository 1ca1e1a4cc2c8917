ghost use Rattle.std.specs.Prelude.{◌≡◌, ◌<◌, ◌≤◌, length, IfOk, IfErr, OnErr, OnOk};
ghost use Rattle.std.specs.Arc.{arc_value};
ghost use Rattle.tk_shape.specs.Lengths.{turn_count};
ghost use Rattle.tk_cluster.specs.Refusals.{IsWriteRefusal};
ghost use Rattle.tk_cluster.specs.Passes.{own, WroteBytes, SeesMore, Pins, Knows, Learns, ReadsOnly};
ghost use Rattle.tk_cluster.specs.Tellings.{told_of, Published, Withheld};

use crate::{Cluster, EpochSet, Pass, Publisher, Told, WriteError};
use std::alloc::AllocGlobal;
use std::sync::{Arc, Wait};
use std::thread::Threads;
use tk_order::Naming;
use tk_shape::Memory;

impl<B: Naming> Cluster<B> {
    /// Orders the write that a frame spells under the pass's number, and answers its position.
    /// After a refusal nothing is ordered.
    pub fn write<R: Wait>(
        &self,
        rt: &R,
        pass: &mut Pass<B>,
        frame: &[u8],
    ) -> Result<u64, WriteError>
        requires { length (own pass.old) < turn_count B.shape }
        ensures last { IfOk result (λ p. p ≡ length pass.new.seen) }
        ensures wrote { OnOk result (WroteBytes B.shape frame.now pass.old pass.new) }
        ensures refused { IfErr result (IsWriteRefusal B.shape pass.old.client frame.now) }
        ensures err { OnErr result (SeesMore pass.old pass.new) }
    {
        pass.write(rt, &self.shape, &self.order, frame)
    }

    /// One mark more stands in the order, and the set of its epoch is shown. Where memory runs out
    /// nothing more is shown, and the mark may stand: then the next call orders no other. That each
    /// server lets the epochs below the one before go is no promise; tests see it.
    pub fn publish<R: Wait + AllocGlobal>(
        &self,
        rt: &R,
        publisher: &mut Publisher<B>,
    ) -> Result<Told, Memory>
        requires { length publisher.old.shown ≤ B.shape.phases }
        ensures published { OnOk result (Published B.shape publisher.old publisher.new) }
        ensures told { IfOk result (λ t. t ≡ told_of publisher.new) }
        ensures err { OnErr result (Withheld publisher.old publisher.new) }
    {
        publisher.publish(rt, self)
    }

    /// A shown set whose number is at most `most`, and none below the one that the pass knows. It
    /// waits for nobody. The newest one that is shown is answered where it may be: that is no
    /// promise, since no clause knows what is shown at that moment.
    pub fn pin(&self, pass: &mut Pass<B>, most: u32) -> Result<Arc<EpochSet>, Memory>
        requires { pass.old.reads.known ≤ most }
        ensures ok { IfOk result
            (λ s. ReadsOnly (λ a b. Pins a most (arc_value s) b) pass.old pass.new) }
        ensures err { OnErr result (ReadsOnly Knows pass.old pass.new) }
    {
        pass.pin(most)
    }

    /// The pass takes in what the publisher told. It waits for nobody.
    pub fn learn(&self, pass: &mut Pass<B>, told: &mut Told) -> Result<(), Memory>
        requires { told.old.board ≡ pass.old.reads.board }
        ensures told { told.new ≡ told.old }
        ensures ok { OnOk result (ReadsOnly (λ a b. Learns a told.old b) pass.old pass.new) }
        ensures err { OnErr result (pass.new ≡ pass.old) }
    {
        pass.learn(told)
    }
}

impl<B: Naming + Send + Sync> Cluster<B> {
    /// What `publish` does, where so many threads make the epochs of several servers at once.
    pub fn publish_with<R: Threads + Wait + Sync + AllocGlobal>(
        &self,
        rt: &R,
        publisher: &mut Publisher<B>,
        workers: u32,
    ) -> Result<Told, Memory>
        requires room { length publisher.old.shown ≤ B.shape.phases }
        requires workers { 1 ≤ workers }
        ensures published { OnOk result (Published B.shape publisher.old publisher.new) }
        ensures told { IfOk result (λ t. t ≡ told_of publisher.new) }
        ensures err { OnErr result (Withheld publisher.old publisher.new) }
    {
        publisher.publish_with(rt, self, workers)
    }
}
