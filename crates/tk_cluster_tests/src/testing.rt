//! What the tests share: a small shape, frames of clients, and a cluster to call.
ghost use Rattle.std.specs.Prelude.{◌≡◌, ◌+◌, ◌≤◌, IfSome, IfOk};
ghost use Rattle.tk_cluster.specs.Clusters.{Opened};
ghost use Rattle.tk_cluster.specs.Passes.{Stays};

use std::alloc::Global;
use std::sync::{Arc, Wait};
use std::thread::Threads;
use tk_cluster::{Cluster, EpochSet, Pass, Publisher, Told, WriteError};
use tk_frames::{ReadFrame, Seeds, WriteFrame, encode_read, encode_write};
use tk_order::{Blank, Naming};
use tk_shape::{Bytes, Memory, Shape, Words};

/// Two clients and two servers, phases of one tick, eight buckets of four slots, and blocks of 24
/// bytes.
pub(crate) fn blank(alloc: Global, phases: u32) -> Option<Blank>
    ensures { IfSome result (λ b. b.seats ≡ b.shape.clients + 1) }
{
    blank_of(alloc, 1, phases)
}

/// The same in a format.
pub(crate) fn blank_of(alloc: Global, format: u32, phases: u32) -> Option<Blank>
    requires low { 1 ≤ format }
    requires high { format ≤ 2 }
    ensures { IfSome result (λ b. b.seats ≡ b.shape.clients + 1) }
{
    let numbers = [2, 8, 4, 4, 24, 64, 1, 0, 2, phases, 1, 1];
    let Ok(shape) = Shape::of(format, numbers) else {
        return None;
    };
    let Ok(blank) = Blank::new(alloc, &shape, shape.clients + 1) else {
        return None;
    };
    Some(blank)
}

/// The frame of a client's write in a turn to buckets 2 and 5, whose block is all 1.
pub(crate) fn write(alloc: Global, client: u32, turn: u32) -> Option<Bytes> {
    let frame = WriteFrame {
        client,
        turn,
        first: 2,
        second: 5,
        hits: Words::from_vec(vec![in alloc; 7; 1].ok()?),
        block: Bytes::from_vec(vec![in alloc; 1; 24].ok()?),
    };
    let mut bytes = Vec::new(alloc);
    encode_write(&frame, &mut bytes).ok()?;
    Some(Bytes::from_vec(bytes))
}

/// The frame of a read for bucket 2 twice, over an epoch.
pub(crate) fn read(alloc: Global, epoch: u32) -> Option<Bytes> {
    read_by(alloc, epoch, [4, 4])
}

/// The frame of a read by two vectors, over an epoch.
pub(crate) fn read_by(alloc: Global, epoch: u32, vectors: [u8; 2]) -> Option<Bytes> {
    let frame = ReadFrame {
        client: 1,
        turn: 3,
        epoch,
        first: Bytes::from_slice(alloc, &[vectors[0]]).ok()?,
        second: Bytes::from_slice(alloc, &[vectors[1]]).ok()?,
        seeds: Seeds::Plain,
    };
    let mut bytes = Vec::new(alloc);
    encode_read(&frame, &mut bytes).ok()?;
    Some(Bytes::from_vec(bytes))
}

/// A cluster, and what its tests need of the shape and the memory.
#[derive(Drop)]
pub(crate) struct Desk<B: Naming> {
    pub(crate) cluster: Cluster<B>,
    pub(crate) shape: Shape,
    pub(crate) alloc: Global,
    pub(crate) ghost of: { shape ≡ B.shape },
}

impl<B: Naming> Desk<B> {
    /// A new cluster, its publisher and its passes.
    pub(crate) fn open<R: Wait + AllocGlobal>(
        rt: &R,
        blank: Blank,
    ) -> Result<(Desk<B>, Publisher<B>, Vec<Pass<B>>), Memory>
        requires table { blank.table ≡ B.table }
        requires shape { blank.shape ≡ B.shape }
        requires seats { blank.seats ≡ B.shape.clients + 1 }
        ensures { IfOk result (λ r. Opened B.shape r.1 r.2.items) }
    {
        let shape = blank.shape();
        let alloc = rt.alloc();
        let (cluster, publisher, passes) = Cluster::<B>::open(rt, blank)?;
        let desk = Desk {
            cluster,
            shape,
            alloc,
        };
        Ok((desk, publisher, passes))
    }

    pub(crate) fn write<R: Wait + AllocGlobal>(
        &self,
        rt: &R,
        pass: &mut Pass<B>,
        frame: &[u8],
    ) -> Option<Result<u64, WriteError>>
        ensures { Stays pass.old pass.new }
    {
        if pass.ordered() >= self.shape.turns() {
            return None;
        }
        Some(self.cluster.write(rt, pass, frame))
    }

    pub(crate) fn publish<R: Wait + AllocGlobal>(
        &self,
        rt: &R,
        publisher: &mut Publisher<B>,
    ) -> Option<Told>
        ensures board { publisher.new.board ≡ publisher.old.board }
        ensures told { IfSome result (λ t. t.board ≡ publisher.old.board) }
    {
        if publisher.shown() >= self.shape.phases {
            return None;
        }
        self.cluster.publish(rt, publisher).ok()
    }

    /// Whether the pass could take in what was told.
    pub(crate) fn learn(&self, pass: &mut Pass<B>, told: &mut Told) -> bool
        requires { pass.old.reads.board ≡ told.old.board }
        ensures told { told.new ≡ told.old }
        ensures pass { Stays pass.old pass.new }
    {
        self.cluster.learn(pass, told).is_ok()
    }

    /// Whether both could.
    pub(crate) fn learn_both(
        &self,
        told: &mut Told,
        first: &mut Pass<B>,
        second: &mut Pass<B>,
    ) -> bool
        requires { (first.old.reads.board ≡ told.old.board)
            × (second.old.reads.board ≡ told.old.board) }
        ensures first { Stays first.old first.new }
        ensures second { Stays second.old second.new }
    {
        let one = self.learn(first, told);
        let two = self.learn(second, told);
        one & two
    }

    pub(crate) fn pin(&self, pass: &mut Pass<B>, most: u32) -> Option<Arc<EpochSet>>
        ensures { Stays pass.old pass.new }
    {
        if pass.known() > most {
            return None;
        }
        self.cluster.pin(pass, most).ok()
    }
}

impl<B: Naming + Send + Sync> Desk<B> {
    /// The next epoch, of both servers at once.
    pub(crate) fn publish_at_once<R: Threads + Wait + Sync + AllocGlobal>(
        &self,
        rt: &R,
        publisher: &mut Publisher<B>,
    ) -> Option<Told> {
        if publisher.shown() >= self.shape.phases {
            return None;
        }
        self.cluster.publish_with(rt, publisher, 2).ok()
    }
}
