ghost use Rattle.std.specs.Prelude.{◌≡◌, ◌*◌, ◌++◌, ◌∷◌, [], length, map, IfOk, OnOk};
ghost use Rattle.std.specs.List.{All, AllByRecursion};
ghost use Rattle.tk_shape.specs.Lengths.{vector_len, width};
ghost use Rattle.tk_frames.specs.Ranges.{IsRead, IsReply};
ghost use Rattle.tk_replica.specs.Replies.{sum_over, reply_over, frame_over};
ghost use Rattle.tk_replica.specs.Replies.{asker_of, both_vectors};

use crate::asker::replies_with;
use crate::{Asker, Epoch};
use std::alloc::Global;
use tk_answer::{Blocks, answer, answer_each_with};
use tk_frames::{ReadFrame, Spare};
use tk_shape::{Bytes, Memory};

impl Epoch {
    /// The reply frame to a read, over these blocks.
    pub fn reply(&self, alloc: Global, read: &ReadFrame) -> Result<Bytes, Memory>
        requires { IsRead self.now.shape read.now }
        ensures reply { IfOk result (λ bytes. bytes ≡ frame_over self.now read.now) }
        ensures in_range { OnOk result (IsReply self.now.shape (reply_over self.now read.now)) }
    {
        let first = self.sum(alloc, read.first.as_slice())?;
        let second = self.sum(alloc, read.second.as_slice())?;
        Asker::of(read).reply(alloc, first.as_slice(), second.as_slice())
    }

    /// Puts the reply frames to several reads after the others, in their order. All vectors are
    /// answered in one pass over the blocks. Buffers on the way are spare ones, and are spare again.
    pub(crate) fn reply_all(
        &self,
        alloc: Global,
        spare: &mut Spare,
        reads: Vec<ReadFrame>,
        out: &mut Vec<Bytes>,
    ) -> Result<(), Memory>
        requires { AllByRecursion (IsRead self.now.shape) reads.items }
        ensures { OnOk result (out.new.items
            ≡ out.old.items ++ map (frame_over self.now) reads.items) }
    {
        let (askers, vectors) = taken_apart(alloc, spare, reads)?;
        let sums = self.sum_each(alloc, spare, vectors)?;
        let mut frames = replies_with(alloc, &mut spare.sums, askers.as_slice(), sums)?;
        out.append(&mut frames)?;
        Ok(())
    }

    /// The sum of the blocks that a vector chooses.
    fn sum(&self, alloc: Global, vector: &[u8]) -> Result<Bytes, Memory>
        requires { length vector.now ≡ vector_len self.now.shape }
        ensures sum { IfOk result (λ sum. sum ≡ sum_over self.now vector.now) }
        ensures long { IfOk result (λ sum. length sum ≡ width self.now.shape) }
    {
        let mut sum = vec![in alloc; 0u8; self.blocks.width() as usize]?;
        answer(&self.blocks, vector, sum.as_mut_slice());
        Ok(Bytes::from_vec(sum))
    }

    /// For each of these vectors the sum of the blocks that it chooses, all in one pass over the
    /// blocks.
    fn sum_each(
        &self,
        alloc: Global,
        spare: &mut Spare,
        vectors: Vec<Bytes>,
    ) -> Result<Vec<Bytes>, Memory>
        requires { All (λ v. 8 * length v ≡ length self.now.blocks.blocks) vectors.items }
        ensures { IfOk result (λ sums. sums.items ≡ map (sum_over self.now) vectors.items) }
    {
        answer_each_with(
            alloc,
            &mut spare.sums,
            &mut spare.vectors,
            &self.blocks,
            vectors,
        )
    }
}

/// Who asks by these reads, and their vectors, two for each. The buffers of their seeds are spare afterwards.
fn taken_apart(
    alloc: Global,
    spare: &mut Spare,
    reads: Vec<ReadFrame>,
) -> Result<(Vec<Asker>, Vec<Bytes>), Memory>
    ensures askers { IfOk result (λ parts. parts.0.items ≡ map asker_of reads.items) }
    ensures vectors { IfOk result (λ parts. parts.1.items ≡ both_vectors reads.items) }
{
    let mut askers = Vec::with_capacity(alloc, reads.len())?;
    let mut vectors = Vec::with_capacity(alloc, reads.len().saturating_mul(2))?;
    for read in reads {
        askers.push(Asker::of(&read))?;
        push_both(read.first, read.second, &mut vectors)?;
        read.seeds.give_back(&mut spare.seeds)?;
    }
    Ok((askers, vectors))
}

/// Appends the two vectors of a read.
pub fn push_vectors(read: ReadFrame, vectors: &mut Vec<Bytes>) -> Result<(), Memory>
    ensures { OnOk result (vectors.new.items
        ≡ vectors.old.items ++ read.first ∷ read.second ∷ []) }
{
    push_both(read.first, read.second, vectors)
}

fn push_both(first: Bytes, second: Bytes, vectors: &mut Vec<Bytes>) -> Result<(), Memory>
    ensures { OnOk result (vectors.new.items ≡ vectors.old.items ++ first ∷ second ∷ []) }
{
    vectors.push(first)?;
    vectors.push(second)?;
    Ok(())
}
