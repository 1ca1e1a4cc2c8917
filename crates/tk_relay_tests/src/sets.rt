//! The set of an epoch, for parts to be served over.
ghost use Rattle.std.specs.Prelude.{◌≡◌, ◌+◌, IfSome};

use crate::reads::shape_of;
use std::alloc::Global;
use std::sync::{Arc, Wait};
use tk_cluster::{Cluster, EpochSet, Pass, Publisher};
use tk_frames::{WriteFrame, encode_write};
use tk_order::{Blank, Naming};
use tk_shape::{Bytes, Shape, Words};

/// What a cluster of a shape begins with, with a seat for each client and the publisher.
pub(crate) fn blank_of(alloc: Global, format: u32, servers: u32, buckets: u32) -> Option<Blank>
    ensures { IfSome result (λ b. b.seats ≡ b.shape.clients + 1) }
{
    let shape = shape_of(format, servers, buckets)?;
    Blank::new(alloc, &shape, shape.clients + 1).ok()
}

/// The set of epoch 1 of a new cluster, in which there is one write.
pub(crate) fn set_of<B: Naming, R: Wait + AllocGlobal>(
    rt: &R,
    blank: Blank,
) -> Option<Arc<EpochSet>>
    requires table { blank.table ≡ B.table }
    requires shape { blank.shape ≡ B.shape }
    requires seats { blank.seats ≡ B.shape.clients + 1 }
{
    let shape = blank.shape();
    let (cluster, mut publisher, mut passes) = Cluster::<B>::open(rt, blank).ok()?;
    let set = match passes.first_mut() {
        Some(pass) => shown(rt, &shape, &cluster, &mut publisher, pass),
        None => None,
    };
    publisher.give_up(rt);
    set
}

/// That set, which a client pins after its write.
fn shown<B: Naming, R: Wait + AllocGlobal>(
    rt: &R,
    shape: &Shape,
    cluster: &Cluster<B>,
    publisher: &mut Publisher<B>,
    pass: &mut Pass<B>,
) -> Option<Arc<EpochSet>>
    requires { shape.now ≡ B.shape }
{
    if pass.ordered() >= shape.turns() || publisher.shown() >= shape.phases {
        return None;
    }
    let frame = write(rt.alloc())?;
    cluster.write(rt, pass, frame.as_slice()).ok()?;
    let _told = cluster.publish(rt, publisher).ok()?;
    if pass.known() > 1 {
        return None;
    }
    cluster.pin(pass, 1).ok()
}

/// The frame of client 0's write in turn 0 to buckets 2 and 5, whose block is all 1.
fn write(alloc: Global) -> Option<Vec<u8>> {
    let frame = WriteFrame {
        client: 0,
        turn: 0,
        first: 2,
        second: 5,
        hits: Words::from_vec(vec![in alloc; 7; 1].ok()?),
        block: Bytes::from_vec(vec![in alloc; 1; 24].ok()?),
    };
    let mut bytes = Vec::new(alloc);
    encode_write(&frame, &mut bytes).ok()?;
    Some(bytes)
}
