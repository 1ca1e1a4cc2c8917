ghost use Rattle.std.specs.Prelude.{◌≡◌, ◌≤◌, List, None, length, map, IfOk, IfErr, OnOk};
ghost use Rattle.std.specs.List.{All};
ghost use Rattle.tk_shape.specs.declared.shape.Shape.{Shape};
ghost use Rattle.tk_shape.specs.Lengths.{vector_len};
ghost use Rattle.tk_frames.specs.declared.entry.Placed.{Placed};
ghost use Rattle.tk_replica.specs.Replies.{sum_over, reply_bytes};
ghost use Rattle.tk_cluster.specs.Refusals.{first_unanswered, IsManyRefusal, IsAsked};
ghost use Rattle.tk_cluster.specs.Many.{AreReads};
ghost use Rattle.tk_cluster.specs.Sets.{StandsAtMark};

use crate::{AnswerError, EpochSet};
use std::alloc::Global;
use std::thread::Threads;
use tk_batch::answer_all;
use tk_replica::{Asker, Epoch, push_vectors, replies};
use tk_shape::{Bytes, Memory};

impl EpochSet {
    /// A server's reply frames to several read frames of its epoch, in their order. All vectors are
    /// answered together, by at most so many threads. The first bad frame decides.
    pub fn answer_many<R: Threads + Sync>(
        &self,
        rt: &R,
        server: u32,
        frames: &[Bytes],
        workers: u32,
    ) -> Result<Vec<Bytes>, AnswerError>
        requires server { (1 ≤ server) × (server ≤ self.now.shape.servers) }
        requires workers { (1 ≤ workers) × (workers ≤ 64) }
        ensures kept { OnOk result
            (first_unanswered self.now.shape self.now.number frames.now ≡ None) }
        ensures refused { IfErr result
            (IsManyRefusal (first_unanswered self.now.shape self.now.number frames.now)) }
        ensures plain { All (IsAsked self.now) frames.now
            → IfErr result (λ e. e ≡ AnswerError.Memory) }
        ensures asked { OnOk result (All (IsAsked self.now) frames.now) }
        ensures replies { (shape : Shape) (E : List Placed) → StandsAtMark shape E self.now.number self.now
            → IfOk result (λ replies. replies.items ≡ map (reply_bytes shape E) frames.now) }
    {
        let alloc = *self.epochs.allocator();
        let (askers, vectors) = self.reads(alloc, frames)?;
        let sums = sums(rt, self.epoch(server), vectors, workers)?;
        Ok(replies(alloc, askers.as_slice(), sums)?)
    }

    /// Who asks by these frames, and the vectors, two for each, if all name this epoch. With the sums
    /// over the blocks of a server `replies` of `tk_replica` makes the replies. The first bad frame
    /// decides.
    pub fn reads(
        &self,
        alloc: Global,
        frames: &[Bytes],
    ) -> Result<(Vec<Asker>, Vec<Bytes>), AnswerError>
        ensures reads { IfOk result
            (λ r. AreReads self.now.shape self.now.number frames.now r.0.items r.1.items) }
        ensures kept { OnOk result
            (first_unanswered self.now.shape self.now.number frames.now ≡ None) }
        ensures refused { IfErr result
            (IsManyRefusal (first_unanswered self.now.shape self.now.number frames.now)) }
        ensures plain { All (IsAsked self.now) frames.now
            → IfErr result (λ e. e ≡ AnswerError.Memory) }
    {
        let mut askers = Vec::new(alloc);
        let mut vectors = Vec::new(alloc);
        for frame in frames {
            let read = self.read(alloc, frame.as_slice())?;
            askers.push(Asker::of(&read))?;
            push_vectors(read, &mut vectors)?;
        }
        Ok((askers, vectors))
    }
}

/// For each of these vectors the sum of the blocks of an epoch that it chooses.
fn sums<R: Threads + Sync>(
    rt: &R,
    epoch: &Epoch,
    vectors: Vec<Bytes>,
    workers: u32,
) -> Result<Vec<Bytes>, Memory>
    requires vectors { All (λ v. length v ≡ vector_len epoch.now.shape) vectors.items }
    requires workers { (1 ≤ workers) × (workers ≤ 64) }
    ensures { IfOk result (λ sums. sums.items ≡ map (sum_over epoch.now) vectors.items) }
{
    answer_all(rt, epoch.blocks(), vectors, workers)
}
