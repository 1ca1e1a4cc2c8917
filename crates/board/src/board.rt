//! The servers, which all take the same entries in the same order. Entries, reads and replies are
//! frames, so that the bytes may come and go over any wire.
ghost use Rattle.std.specs.Prelude.{◌≡◌, ◌+◌, ◌++◌, ◌∷◌, [], List, length, map, All, true, IfOk};
ghost use Rattle.std.specs.Prelude.{OnOk, OnErr};
ghost use Rattle.tk_shape.specs.declared.shape.Shape.{Shape};
ghost use Rattle.tk_frames.specs.declared.entry.Placed.{Placed};
ghost use Rattle.tk_frames.specs.InOrder.{IsNextAt};
ghost use Rattle.tk_frames.specs.Ranges.{IsPlaced};
ghost use Rattle.tk_frames.specs.Spelling.{placed_frame};
ghost use Rattle.tk_replica.specs.Replica.{StandsFor};
ghost use Rattle.tk_replica.specs.Replies.{reply_bytes};
ghost use Rattle.tk_replica.specs.Restoring.{EndsWithMark};

use crate::fault::Fault;
use std::alloc::Global;
use std::marker::Model;
use std::sync::Arc;
use tk_checkpoint::{checkpoint, restore};
use tk_frames::{Entry, Placed, decode_placed, encode_placed};
use tk_replica::{Epoch, ReplicaState};
use tk_shape::{Bytes, Shape};

/// The servers of a shape. Seen as the shape and what each server has.
#[derive(Drop)]
pub struct Board {
    shape: Shape,
    servers: Vec<ReplicaState>,
}

impl Model for Board {
    ghost use Rattle.board.specs.Boards.{BoardView, IsBoard};

    ghost Value = { BoardView };

    ghost view = { λ b. record { shape = b.shape; servers = b.servers.items } };

    ghost invariant = { λ b. IsBoard b.shape b.servers.items };
}

impl Board {
    /// The servers before any entry.
    pub fn open(alloc: Global, shape: &Shape) -> Result<Board, Fault>
        ensures shape { IfOk result (λ b. b.shape ≡ shape.now) }
        ensures stand { IfOk result (λ b. All (StandsFor shape.now []) b.servers) }
    {
        let mut servers = Vec::new(alloc);
        for _ in 0..shape.servers {
            servers.push(ReplicaState::open(alloc, shape)?)?;
        }
        Ok(Board {
            shape: *shape,
            servers,
        })
    }

    /// Each server takes an entry, at the place behind those that the first one has.
    pub fn take(&mut self, alloc: Global, entry: Entry) -> Result<(), Fault> {
        let Some(position) = self.servers[0].applied().checked_add(1) else {
            return Err(Fault::Over);
        };
        let mut frame = Vec::new(alloc);
        encode_placed(&Placed { position, entry }, &mut frame)?;
        for server in self.servers.iter_mut() {
            take(alloc, server, frame.as_slice())?;
        }
        Ok(())
    }

    /// Each server takes the mark that ends a phase, and makes an epoch of what it has.
    pub fn mark(&mut self, alloc: Global) -> Result<(), Fault> {
        let Some(number) = self.servers[0].last().checked_add(1) else {
            return Err(Fault::Over);
        };
        self.take(alloc, Entry::Mark(number))
    }

    /// The latest epoch of the first server, whose filter tells readers what is worth reading.
    pub fn latest(&self) -> Result<Arc<Epoch>, Fault> {
        let server = &self.servers[0];
        Ok(server.pin(server.last())?)
    }

    /// The reply of each server to its own read frame.
    pub fn replies(&self, alloc: Global, frames: &[Bytes]) -> Result<Vec<Bytes>, Fault>
        ensures counted { IfOk result (λ replies. length replies.items ≡ length frames.now) }
        ensures replies { (shape : Shape) (E : List Placed) → All (StandsFor shape E) self.now.servers
            → IfOk result (λ replies. replies.items ≡ map (reply_bytes shape E) frames.now) }
    {
        if frames.len() != self.servers.len() {
            return Err(Fault::OtherShape);
        }
        answers(alloc, self.servers.as_slice(), frames)
    }

    /// Stops each server, and lets another one go on from what it saved. Right behind a mark the
    /// servers then stand for the same entries.
    pub fn restart(&mut self, alloc: Global) -> Result<(), Fault>
        ensures stand { (E : List Placed) → All (StandsFor self.old.shape E) self.old.servers
            → EndsWithMark E → OnOk result (All (StandsFor self.old.shape E) self.new.servers) }
        ensures kept { OnErr result (self.new ≡ self.old) }
    {
        let servers = all_restarted(alloc, &self.shape, self.servers.as_slice())?;
        self.servers = servers;
        Ok(())
    }
}

/// The reply of each server to its own read frame.
fn answers(alloc: Global, servers: &[ReplicaState], frames: &[Bytes]) -> Result<Vec<Bytes>, Fault>
    requires { length frames.now ≡ length servers.now }
    ensures counted { IfOk result (λ replies. length replies.items ≡ length frames.now) }
    ensures replies { (shape : Shape) (E : List Placed) → All (StandsFor shape E) servers.now
        → IfOk result (λ replies. replies.items ≡ map (reply_bytes shape E) frames.now) }
{
    let mut replies = Vec::new(alloc);
    for (i, server) in servers.iter().enumerate() {
        replies.push(server.serve(alloc, frames[i].as_slice())?)?;
    }
    Ok(replies)
}

/// A server for each of these, which goes on from its checkpoint.
fn all_restarted(
    alloc: Global,
    shape: &Shape,
    servers: &[ReplicaState],
) -> Result<Vec<ReplicaState>, Fault>
    ensures counted { IfOk result (λ made. length made.items ≡ length servers.now) }
    ensures stand { (E : List Placed) → All (StandsFor shape.now E) servers.now → EndsWithMark E
        → IfOk result (λ made. All (StandsFor shape.now E) made.items) }
{
    let mut made = Vec::new(alloc);
    for server in servers {
        made.push(restarted(alloc, shape, server)?)?;
    }
    Ok(made)
}

/// A server that goes on from the checkpoint of another one.
fn restarted(alloc: Global, shape: &Shape, server: &ReplicaState) -> Result<ReplicaState, Fault>
    ensures { (E : List Placed) → StandsFor shape.now E server.now → EndsWithMark E
        → IfOk result (StandsFor shape.now E) }
{
    let mut saved = Vec::new(alloc);
    checkpoint(server, &mut saved)?;
    Ok(restore(alloc, shape, saved.as_slice())?)
}

/// Whether an entry is the next one for a server.
fn is_next(server: &ReplicaState, placed: &Placed) -> bool
    requires { IsPlaced server.now.shape placed.now }
    ensures { result ≡ true → IsNextAt server.now.shape (server.now.applied + 1)
        (server.now.last + 1) placed.now }
{
    if placed.position - 1 != server.applied() {
        return false;
    }
    match &placed.entry {
        Entry::Write(_) => true,
        Entry::Mark(number) => *number - 1 == server.last(),
    }
}

/// A server takes the frame of its next entry. What it refuses changes nothing.
fn take(alloc: Global, server: &mut ReplicaState, frame: &[u8]) -> Result<(), Fault>
    ensures taken { (shape : Shape) (E : List Placed) (p : Placed)
        → StandsFor shape E server.old → IsPlaced shape p → frame.now ≡ placed_frame p
        → OnOk result (StandsFor shape (E ++ p ∷ []) server.new) }
    ensures kept { OnErr result (server.new ≡ server.old) }
{
    let placed = decode_placed(alloc, server.shape(), frame)?;
    if !is_next(server, &placed) {
        return Err(Fault::NotNext {
            applied: server.applied(),
        });
    }
    server.apply(alloc, &placed)?;
    Ok(())
}
