ghost use Rattle.std.specs.Prelude.{◌≡◌, ◌≢◌, ◌≤◌, ◌<◌, ◌+◌, ◌^◌, ◌++◌, ◌∷◌, [], cond, List};
ghost use Rattle.std.specs.Prelude.{IfOk, IfErr, OnOk};
ghost use Rattle.tk_shape.specs.declared.shape.Shape.{Shape};
ghost use Rattle.tk_frames.specs.declared.entry.Placed.{Placed};
ghost use Rattle.tk_frames.specs.Order.{is_mark};
ghost use Rattle.tk_table.specs.Puts.{put_of};
ghost use Rattle.tk_replica.specs.Replica.{StandsFor};
ghost use Rattle.tk_replica.specs.Restoring.{EndsWithMark};
ghost use Rattle.tk_frames.specs.InOrder.{IsOrder};
ghost use Rattle.tk_checkpoint.specs.Saved.{saved, saved_of};
ghost use Rattle.tk_checkpoint.specs.Reading.{saved_in};
ghost use Rattle.tk_checkpoint.specs.Sound.{IsSound};
ghost use Rattle.tk_report.specs.Displaced.{displaced_in};

use crate::laws::checkpoints_accepted;
use crate::resume_error::ResumeError;
use std::alloc::Global;
use tk_checkpoint::{RestoreError, checkpoint, restore, written_at_marks};
use tk_frames::{Entry, Placed, Spare, encode_placed};
use tk_replica::ReplicaState;
use tk_report::displaced_with;
use tk_shape::{Bytes, Memory, Shape};
use tk_table::Put;

/// A server: its replica, the frames that came and went since they were last given to its tap, and
/// how many writes found no place when they came.
#[derive(Drop)]
pub(crate) struct Server {
    pub state: ReplicaState,
    pub seen: Vec<u8>,
    pub displaced: u32,
    /// Buffers that answers were made in, for those to come.
    pub spare: Spare,
}

impl Server {
    ghost use Rattle.std.specs.Prelude.{◌≡◌, ◌≢◌, ◌++◌, ◌∷◌, [], ℕ, List, length, map, IfOk, IfErr, OnOk};
    ghost use Rattle.tk_shape.specs.declared.shape.Shape.{Shape};
    ghost use Rattle.tk_frames.specs.declared.entry.Placed.{Placed};
    ghost use Rattle.tk_frames.specs.Spelling.{placed_frame, reply_frame};
    ghost use Rattle.tk_frames.specs.InOrder.{IsNext, IsOrder};
    ghost use Rattle.tk_replica.specs.Replies.{reply_for};
    ghost use Rattle.tk_replica.specs.Restoring.{EndsWithMark};
    ghost use Rattle.tk_checkpoint.specs.Saved.{saved};
    ghost use Rattle.tk_report.specs.Displaced.{displaced_in};
    ghost use Rattle.tk_run.specs.Resumption.{IfRefused};
    ghost use Rattle.tk_run.specs.Servers.{IsServerAt, IsReadyServer, MayTakeEntry, WhateverItHolds, WhicheverReads};
    ghost use Rattle.tk_run.specs.Servers.{answered};
    ghost use Rattle.tk_run.specs.Rows.{in_pairs};
    ghost use Rattle.tk_run.specs.Keeping.{HasBegunAnew, IsAccepted};

    /// A server before any entry.
    pub(crate) fn open(alloc: Global, shape: &Shape) -> Result<Server, Memory>
        ensures { IfOk result (IsServerAt shape.now [] []) }
    {
        Ok(Server {
            state: ReplicaState::open(alloc, shape)?,
            seen: Vec::new(alloc),
            displaced: 0,
            spare: Spare::new(alloc),
        })
    }

    /// Sees the frame of an entry and takes it. Before a mark all epochs but the last are let go, so
    /// that there are never more than two.
    pub(crate) fn take(&mut self, alloc: Global, placed: &Placed) -> Result<(), Memory>
        requires { MayTakeEntry placed.now self.old }
        ensures ready { (shape : Shape) (E : List Placed)
            → IsReadyServer shape E self.old → IsNext shape E placed.now
            → OnOk result (IsReadyServer shape (E ++ placed.now ∷ []) self.new) }
        ensures server { WhateverItHolds self.old (λ shape E bytes. OnOk result
            (IsServerAt shape (E ++ placed.now ∷ []) (bytes ++ placed_frame placed.now) self.new)) }
    {
        // (its replica has applied as many as came before)
        if placed.position - 1 != self.state.applied() {
            return Err(Memory);
        }
        encode_placed(placed, &mut self.seen)?;
        make_room(&mut self.state, &placed.entry);
        let put = self.state.apply_and_tell(alloc, placed)?;
        self.displaced = counted_on(self.displaced, put);
        Ok(())
    }

    /// The replies to reads, in their order, in one pass over what the server holds. It sees each
    /// read and its reply.
    pub(crate) fn answer(&mut self, alloc: Global, frames: &[Bytes]) -> Result<Vec<Bytes>, Memory>
        ensures ready { (shape : Shape) (E : List Placed) → IsReadyServer shape E self.old
            → OnOk result (IsReadyServer shape E self.new) }
        ensures replies { WhicheverReads self.old frames.now (λ shape E bytes reads. IfOk result
            (λ replies. replies.items ≡ map reply_frame (map (reply_for shape E) reads))) }
        ensures server { WhicheverReads self.old frames.now (λ shape E bytes reads. OnOk result
            (IsServerAt shape E (bytes ++ answered shape E reads) self.new)) }
    {
        // what clients send are reads of epochs that are kept, so that only memory may be wanting
        let Ok(replies) = self.state.serve_all_with(alloc, &mut self.spare, frames) else {
            return Err(Memory);
        };
        // (there is a reply to each)
        if replies.len() != frames.len() {
            return Err(Memory);
        }
        self.see(frames, replies.as_slice())?;
        Ok(replies)
    }

    /// The checkpoint of its replica, which has applied nothing behind its last mark.
    pub(crate) fn saved(&self, alloc: Global) -> Result<Vec<u8>, Memory>
        ensures ends { WhateverItHolds self.now (λ shape E bytes. OnOk result (EndsWithMark E)) }
        ensures saved { WhateverItHolds self.now
            (λ shape E bytes. IfOk result (λ out. out.items ≡ saved shape E)) }
        ensures accepted { WhateverItHolds self.now
            (λ shape E bytes. OnOk result (IsAccepted shape E (saved shape E))) }
    {
        let mut out = Vec::new(alloc);
        // the mark came last in its turn, so that only memory may be wanting
        let Ok(()) = checkpoint(&self.state, &mut out) else {
            return Err(Memory);
        };
        written_at_marks();
        checkpoints_accepted();
        Ok(out)
    }

    /// Its replica is made anew, of what these bytes have and nothing else. A checkpoint of other
    /// numbers of entries and marks than it has applied is refused. A checkpoint has no count of
    /// displaced writes, so that the server's own goes on.
    pub(crate) fn go_on(
        &mut self,
        alloc: Global,
        shape: &Shape,
        bytes: &[u8],
    ) -> Result<(), ResumeError>
        ensures accepted { (E : List Placed) (seen : List ℕ) → IsServerAt shape.now E seen self.old
            → OnOk result (IsAccepted shape.now E bytes.now) }
        ensures refused { (E : List Placed) (seen : List ℕ) → IsServerAt shape.now E seen self.old
            → IfRefused result (¬ IsAccepted shape.now E bytes.now) }
        ensures anew { OnOk result (HasBegunAnew shape.now bytes.now self.new) }
        ensures ready { (E : List Placed) → IsReadyServer shape.now E self.old
            → OnOk result (IsReadyServer shape.now E self.new) }
        ensures stands { (E F : List Placed) (seen : List ℕ) → IsServerAt shape.now E seen self.old
            → IsOrder shape.now F → EndsWithMark F → displaced_in shape.now F ≡ displaced_in shape.now E
            → bytes.now ≡ saved shape.now F → OnOk result (IsServerAt shape.now F seen self.new) }
        ensures not_taps { IfErr result (λ e. e ≢ ResumeError.Taps) }
    {
        let state = restored(alloc, shape, bytes)?;
        if state.applied() != self.state.applied() || state.last() != self.state.last() {
            return Err(ResumeError::Refused);
        }
        self.state = state;
        Ok(())
    }

    /// Sees reads, each with its reply.
    fn see(&mut self, frames: &[Bytes], replies: &[Bytes]) -> Result<(), Memory>
        requires { length replies.now ≡ length frames.now }
        ensures state { self.new.state ≡ self.old.state }
        ensures displaced { self.new.displaced ≡ self.old.displaced }
        ensures seen { OnOk result
            (self.new.seen.items ≡ self.old.seen.items ++ in_pairs frames.now replies.now) }
    {
        for (i, frame) in frames.iter().enumerate() {
            self.seen.extend_from_slice(frame.as_slice())?;
            self.seen.extend_from_slice(replies[i].as_slice())?;
        }
        Ok(())
    }
}

/// The state that the bytes of a checkpoint have.
fn restored(alloc: Global, shape: &Shape, bytes: &[u8]) -> Result<ReplicaState, ResumeError>
    ensures sound { OnOk result (IsSound shape.now bytes.now) }
    ensures refused { IfErr result (λ e. e ≡ ResumeError.Refused → ¬ IsSound shape.now bytes.now) }
    ensures shape { IfOk result (λ s. s.shape ≡ shape.now) }
    ensures floor { IfOk result (λ s. s.floor ≡ s.last) }
    ensures parts { IfOk result (λ s. saved_of s ≡ saved_in shape.now bytes.now) }
    ensures stands { (E : List Placed) → IsOrder shape.now E → EndsWithMark E
        → bytes.now ≡ saved shape.now E → IfOk result (StandsFor shape.now E) }
    ensures not_taps { IfErr result (λ e. e ≢ ResumeError.Taps) }
{
    match restore(alloc, shape, bytes) {
        Ok(state) => Ok(state),
        Err(RestoreError::Memory) => Err(ResumeError::Memory),
        Err(_) => Err(ResumeError::Refused),
    }
}

/// How many writes are displaced, where so many were before and this became of the last entry.
fn counted_on(before: u32, put: Option<Put>) -> u32
    requires { before + 1 < 2 ^ 32 }
    ensures most { result ≤ before + 1 }
    ensures counts { (shape : Shape) (E : List Placed) (p : Placed) → before ≡ displaced_in shape E
        → put ≡ put_of shape E p → result ≡ displaced_in shape (E ++ p ∷ []) }
{
    displaced_with(before, put).min(before + 1)
}

/// Where a mark comes, lets all epochs but the last go.
fn make_room(state: &mut ReplicaState, entry: &Entry)
    requires { state.old.floor ≤ state.old.last }
    ensures same { state.new.shape ≡ state.old.shape }
    ensures applied { state.new.applied ≡ state.old.applied }
    ensures last { state.new.last ≡ state.old.last }
    ensures some { state.new.floor ≤ state.new.last }
    ensures stands { (shape : Shape) (E : List Placed)
        → StandsFor shape E state.old → StandsFor shape E state.new }
    ensures floor { state.new.floor
        ≡ cond (is_mark entry.now) state.old.last state.old.floor }
{
    if let Entry::Mark(_) = entry {
        state.release(state.last());
    }
}
