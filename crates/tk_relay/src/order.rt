//! How the entries of a run come into its cluster, in which one client after the other writes.
ghost use Rattle.std.specs.Prelude.{◌≡◌, ◌++◌, ◌∷◌, [], List, All, OnOk};
ghost use Rattle.tk_frames.specs.Ranges.{IsWrite};
ghost use Rattle.tk_frames.specs.InOrder.{IsNext};
ghost use Rattle.tk_frames.specs.declared.entry.Placed.{Placed as Entered};
ghost use Rattle.tk_frames.specs.declared.entry.Entry.TheVariants as entry;
ghost use Rattle.tk_cluster.specs.Passes.{own, Learns, ReadsOnly};
ghost use Rattle.tk_relay.specs.Ordered.{EachChanged, HaveOrdered, MayOrder};

use std::alloc::AllocGlobal;
use std::sync::Wait;
use tk_cluster::{Cluster, Pass, Publisher, Told};
use tk_frames::{Entry, Placed, WriteFrame, encode_write, one_spelling};
use tk_order::Naming;
use tk_shape::Memory;

/// An entry is ordered at its place: a write by the pass of its client, and a mark by the publisher, of which all passes
/// learn.
pub(crate) fn order<B: Naming, R: Wait + AllocGlobal>(
    rt: &R,
    cluster: &Cluster<B>,
    passes: &mut [Pass<B>],
    publisher: &mut Publisher<B>,
    placed: &Placed,
) -> Result<(), Memory>
    requires { MayOrder B.shape placed.now passes.old publisher.old }
    ensures { (E : List Entered) → HaveOrdered B.shape E passes.old publisher.old
        → IsNext B.shape E placed.now
        → OnOk result (HaveOrdered B.shape (E ++ placed.now ∷ []) passes.new publisher.new) }
{
    match &placed.entry {
        Entry::Write(write) => {
            let pass = &mut passes[write.client as usize];
            order_write(rt, cluster, pass, write, placed.position)
        }
        Entry::Mark(_) => {
            let mut told = cluster.publish(rt, publisher)?;
            learn_all(cluster, passes, &mut told)
        }
    }
}

/// A pass orders its client's write at this position, if no other orders an entry meanwhile.
fn order_write<B: Naming, R: Wait + AllocGlobal>(
    rt: &R,
    cluster: &Cluster<B>,
    pass: &mut Pass<B>,
    write: &WriteFrame,
    position: u64,
) -> Result<(), Memory>
    requires { IsWrite B.shape write.now }
    ensures client { OnOk result (pass.new.client ≡ pass.old.client) }
    ensures reads { OnOk result (pass.new.reads ≡ pass.old.reads) }
    ensures own { OnOk result (own pass.new
        ≡ own pass.old ++ record { position = position; entry = entry.Write write.now } ∷ []) }
{
    // a client writes once in each turn, so that only memory may be wanting
    if pass.ordered() > write.turn {
        return Err(Memory);
    }
    one_spelling();
    let mut frame = Vec::new(rt.alloc());
    encode_write(write, &mut frame)?;
    // and nobody else orders meanwhile
    let Ok(at) = cluster.write(rt, pass, frame.as_slice()) else {
        return Err(Memory);
    };
    if at != position {
        return Err(Memory);
    }
    Ok(())
}

/// All passes take in what was told.
fn learn_all<B: Naming>(
    cluster: &Cluster<B>,
    passes: &mut [Pass<B>],
    told: &mut Told,
) -> Result<(), Memory>
    requires { All (λ a. a.reads.board ≡ told.old.board) passes.old }
    ensures { OnOk result
        (EachChanged (ReadsOnly (λ a b. Learns a told.old b)) passes.old passes.new) }
{
    for pass in passes.iter_mut() {
        cluster.learn(pass, told)?;
    }
    Ok(())
}
