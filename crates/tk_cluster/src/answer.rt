ghost use Rattle.std.specs.Prelude.{◌≡◌, ◌≤◌, ℕ, List, length, None, IfOk, IfErr, OnOk};
ghost use Rattle.tk_shape.specs.declared.shape.Shape.{Shape};
ghost use Rattle.tk_shape.specs.Lengths.{width};
ghost use Rattle.tk_frames.specs.declared.entry.Placed.{Placed};
ghost use Rattle.tk_frames.specs.Faults.{first_fault, read_checks};
ghost use Rattle.tk_bloom.specs.Filters.{all_marked};
ghost use Rattle.tk_table.specs.Shown.{is_shown};
ghost use Rattle.tk_table.specs.Table.{layout, blocks_of};
ghost use Rattle.tk_replica.specs.Replies.{reply_bytes};
ghost use Rattle.tk_replica.specs.Epochs.{filter_of, IsEpochOf};
ghost use Rattle.tk_frames.specs.Order.{before};
ghost use Rattle.tk_cluster.specs.Refusals.{IsAnswerRefusal, IsAsked, SpellsRead};
ghost use Rattle.tk_cluster.specs.Refusals.{answer_refusal, IsManyRefusal};
ghost use Rattle.tk_cluster.specs.Sets.{StandsAtMark};

use crate::{AnswerError, EpochSet};
use std::alloc::Global;
use tk_bloom::Filter;
use tk_frames::{ReadFrame, decode_read};
use tk_replica::Epoch;
use tk_shape::Bytes;
use tk_table::Snapshot;

impl EpochSet {
    /// What is worth reading in its epochs.
    pub fn filter(&self) -> &Filter
        ensures marks { (shape : Shape) (E : List Placed) → StandsAtMark shape E self.now.number self.now
            → result.now ≡ filter_of shape (before E self.now.number) }
        ensures shows { (shape : Shape) (E : List Placed) → StandsAtMark shape E self.now.number self.now
            → (hits : List ℕ)
            → all_marked result.now hits ≡ is_shown shape (before E self.now.number) hits }
    {
        self.epoch(1).filter()
    }

    /// A server's blocks: the bytes of each bucket of its epoch.
    pub fn blocks(&self, server: u32) -> &Snapshot
        requires server { (1 ≤ server) × (server ≤ self.now.shape.servers) }
        ensures count { length result.now.blocks ≡ self.now.shape.buckets }
        ensures width { result.now.width ≡ width self.now.shape }
        ensures stands { (shape : Shape) (E : List Placed) → StandsAtMark shape E self.now.number self.now
            → result.now.blocks ≡ blocks_of (layout shape (before E self.now.number)) }
    {
        self.epoch(server).blocks()
    }

    /// A server's reply frame to a read frame of its epoch. It waits for nobody.
    pub fn answer(&self, server: u32, frame: &[u8]) -> Result<Bytes, AnswerError>
        requires server { (1 ≤ server) × (server ≤ self.now.shape.servers) }
        ensures kept { OnOk result (first_fault (read_checks self.now.shape frame.now) ≡ None) }
        ensures refused { IfErr result
            (IsAnswerRefusal self.now.shape self.now.number frame.now) }
        ensures asked { OnOk result (IsAsked self.now frame.now) }
        ensures reply { (shape : Shape) (E : List Placed) → StandsAtMark shape E self.now.number self.now
            → IfOk result (λ reply. reply ≡ reply_bytes shape E frame.now) }
    {
        let alloc = *self.epochs.allocator();
        let read = self.read(alloc, frame)?;
        Ok(self.epoch(server).reply(alloc, &read)?)
    }

    /// A server's epoch.
    pub(crate) fn epoch(&self, server: u32) -> &Epoch
        requires { (1 ≤ server) × (server ≤ self.now.shape.servers) }
        ensures same { result.now.shape ≡ self.now.shape }
        ensures is { (shape : Shape) (E : List Placed) → StandsAtMark shape E self.now.number self.now
            → IsEpochOf shape E self.now.number result.now }
    {
        &self.epochs[(server - 1) as usize]
    }

    /// The read that a frame spells, if it names this epoch.
    pub(crate) fn read(&self, alloc: Global, frame: &[u8]) -> Result<ReadFrame, AnswerError>
        ensures spells { IfOk result (SpellsRead self.now.shape frame.now) }
        ensures epoch { IfOk result (λ r. r.epoch ≡ self.now.number) }
        ensures kept { OnOk result (first_fault (read_checks self.now.shape frame.now) ≡ None) }
        ensures answered { OnOk result
            (answer_refusal self.now.shape self.now.number frame.now ≡ None) }
        ensures refused { IfErr result
            (IsAnswerRefusal self.now.shape self.now.number frame.now) }
        ensures unanswered { IfErr result
            (IsManyRefusal (answer_refusal self.now.shape self.now.number frame.now)) }
        ensures plain { IsAsked self.now frame.now
            → IfErr result (λ e. e ≡ AnswerError.Memory) }
    {
        let read = decode_read(alloc, &self.shape, frame)?;
        if read.epoch != self.number {
            return Err(AnswerError::Epoch {
                want: self.number,
                got: read.epoch,
            });
        }
        Ok(read)
    }
}
