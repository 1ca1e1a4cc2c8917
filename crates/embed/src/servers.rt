//! What servers do: take the entries of the order, and answer reads. Entries, reads and replies
//! are frames, so that the bytes may come and go over any wire.
ghost use Rattle.std.specs.Prelude.{◌≡◌, ◌+◌, ◌++◌, ◌∷◌, [], List, length, map, true, IfOk};
ghost use Rattle.std.specs.Prelude.{None, IfErr, OnOk, OnErr};
ghost use Rattle.tk_shape.specs.declared.shape.Shape.{Shape};
ghost use Rattle.tk_frames.specs.declared.entry.Placed.{Placed};
ghost use Rattle.tk_frames.specs.Faults.{first_fault, placed_checks};
ghost use Rattle.tk_frames.specs.InOrder.{IsNextAt, IsNext};
ghost use Rattle.tk_frames.specs.Ranges.{IsPlaced};
ghost use Rattle.tk_frames.specs.Spelling.{placed_frame};
ghost use Rattle.tk_replica.specs.Replica.{StandsFor};
ghost use Rattle.tk_replica.specs.Replies.{reply_bytes};
ghost use Rattle.embed.specs.Faults.{IsReadFault};
ghost use Rattle.embed.specs.Servers.{AllStandFor};

use crate::fault::Fault;
use std::alloc::Global;
use tk_frames::{Entry, Placed, decode_placed};
use tk_replica::ReplicaState;
use tk_shape::{Bytes, Memory, Shape};

/// The servers of a shape, before any entry.
pub fn open_servers(alloc: Global, shape: &Shape) -> Result<Vec<ReplicaState>, Memory>
    ensures { IfOk result (λ servers. AllStandFor shape.now [] servers.items) }
{
    let mut servers = Vec::new(alloc);
    for _ in 0..shape.servers {
        servers.push(ReplicaState::open(alloc, shape)?)?;
    }
    Ok(servers)
}

/// Whether an entry is the next one for a server.
fn is_next(server: &ReplicaState, placed: &Placed) -> bool
    requires { IsPlaced server.now.shape placed.now }
    ensures next { result ≡ true → IsNextAt server.now.shape (server.now.applied + 1)
        (server.now.last + 1) placed.now }
    ensures due { IsNextAt server.now.shape (server.now.applied + 1)
        (server.now.last + 1) placed.now → result ≡ true }
{
    if placed.position - 1 != server.applied() {
        return false;
    }
    match &placed.entry {
        Entry::Write(_) => true,
        Entry::Mark(number) => *number - 1 == server.last(),
    }
}

/// A server takes the frame of its next entry, a record or a mark, unless memory runs out. It
/// refuses any other bytes, and what it refuses changes nothing.
pub fn take(alloc: Global, server: &mut ReplicaState, frame: &[u8]) -> Result<(), Fault>
    ensures whole { OnOk result (first_fault (placed_checks server.old.shape frame.now) ≡ None) }
    ensures taken { (shape : Shape) (E : List Placed) (p : Placed)
        → StandsFor shape E server.old → IsPlaced shape p → frame.now ≡ placed_frame p
        → OnOk result (StandsFor shape (E ++ p ∷ []) server.new) }
    ensures due { (shape : Shape) (E : List Placed) (p : Placed)
        → StandsFor shape E server.old → IsNext shape E p → frame.now ≡ placed_frame p
        → IfErr result (λ e. e ≡ Fault.Memory) }
    ensures kept { OnErr result (server.new ≡ server.old) }
{
    let placed = decode_placed(alloc, server.shape(), frame)?;
    if !is_next(server, &placed) {
        return Err(Fault::NotNext {
            applied: server.applied(),
        });
    }
    server.apply(alloc, &placed)?;
    Ok(())
}

/// Each server takes the frame of the next entry, unless memory runs out.
pub fn take_all(alloc: Global, servers: &mut [ReplicaState], frame: &[u8]) -> Result<(), Fault>
    ensures taken { (shape : Shape) (E : List Placed) (p : Placed)
        → AllStandFor shape E servers.old → IsPlaced shape p → frame.now ≡ placed_frame p
        → OnOk result (AllStandFor shape (E ++ p ∷ []) servers.new) }
    ensures due { (shape : Shape) (E : List Placed) (p : Placed)
        → AllStandFor shape E servers.old → IsNext shape E p → frame.now ≡ placed_frame p
        → IfErr result (λ e. e ≡ Fault.Memory) }
{
    for server in servers.iter_mut() {
        take(alloc, server, frame)?;
    }
    Ok(())
}

/// The reply of each server to its own read frame.
pub fn answers(
    alloc: Global,
    servers: &[ReplicaState],
    frames: &[Bytes],
) -> Result<Vec<Bytes>, Fault>
    requires { length frames.now ≡ length servers.now }
    ensures counted { IfOk result (λ replies. length replies.items ≡ length frames.now) }
    ensures replies { (shape : Shape) (E : List Placed) → AllStandFor shape E servers.now
        → IfOk result (λ replies. replies.items ≡ map (reply_bytes shape E) frames.now) }
    ensures fault { IfErr result IsReadFault }
{
    let mut replies = Vec::new(alloc);
    for (i, server) in servers.iter().enumerate() {
        replies.push(server.serve(alloc, frames[i].as_slice())?)?;
    }
    Ok(replies)
}
