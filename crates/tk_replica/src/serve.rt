ghost use Rattle.std.specs.Prelude.{◌≡◌, ◌<◌, ◌∷◌, ◌++◌, List, None, length, map, IfOk, IfErr};
ghost use Rattle.std.specs.Prelude.{OnOk};
ghost use Rattle.std.specs.List.{AllByRecursion};
ghost use Rattle.tk_shape.specs.declared.shape.Shape.{Shape};
ghost use Rattle.tk_frames.specs.declared.entry.Placed.{Placed};
ghost use Rattle.tk_frames.specs.Ranges.{IsReply};
ghost use Rattle.tk_replica.specs.Refusals.{serve_refusal, first_refusal, IsServeRefusal};
ghost use Rattle.tk_replica.specs.Replica.{StandsFor};
ghost use Rattle.tk_replica.specs.Replies.{reply_due, reply_bytes, IsAsked, AreAsked};

use crate::{ReplicaState, ServeError};
use std::alloc::Global;
use std::collections::VecDeque;
use tk_frames::{ReadFrame, Spare, decode_read_with};
use tk_shape::{Bytes, Memory};

impl ReplicaState {
    /// The reply frame to a read frame, over the blocks of the epoch that it names.
    pub fn serve(&self, alloc: Global, frame: &[u8]) -> Result<Bytes, ServeError>
        ensures kept { OnOk result (serve_refusal self.now frame.now ≡ None) }
        ensures refused { IfErr result (IsServeRefusal (serve_refusal self.now frame.now)) }
        ensures reply { (shape : Shape) (E : List Placed) → StandsFor shape E self.now
            → IfOk result (λ reply. reply ≡ reply_bytes shape E frame.now) }
        ensures in_range { (shape : Shape) (E : List Placed) → StandsFor shape E self.now
            → OnOk result (IsReply shape (reply_due shape E frame.now)) }
    {
        let read = self.read(alloc, &mut Spare::new(alloc), frame)?;
        Ok(self.epoch(read.epoch).reply(alloc, &read)?)
    }

    /// The reply frames to several read frames, in their order. The first that isn't served
    /// decides.
    pub fn serve_all(&self, alloc: Global, frames: &[Bytes]) -> Result<Vec<Bytes>, ServeError>
        ensures kept { OnOk result (first_refusal self.now frames.now ≡ None) }
        ensures refused { IfErr result (IsServeRefusal (first_refusal self.now frames.now)) }
        ensures replies { (shape : Shape) (E : List Placed) → StandsFor shape E self.now
            → IfOk result (λ replies. replies.items ≡ map (reply_bytes shape E) frames.now) }
    {
        self.serve_all_with(alloc, &mut Spare::new(alloc), frames)
    }

    /// The same reply frames. What is needed on the way lies in spare buffers where there are any,
    /// and its buffers are spare afterwards.
    pub fn serve_all_with(
        &self,
        alloc: Global,
        spare: &mut Spare,
        frames: &[Bytes],
    ) -> Result<Vec<Bytes>, ServeError>
        ensures kept { OnOk result (first_refusal self.now frames.now ≡ None) }
        ensures refused { IfErr result (IsServeRefusal (first_refusal self.now frames.now)) }
        ensures replies { (shape : Shape) (E : List Placed) → StandsFor shape E self.now
            → IfOk result (λ replies. replies.items ≡ map (reply_bytes shape E) frames.now) }
    {
        let mut rest = VecDeque::from(self.read_all(alloc, spare, frames)?);
        let mut replies = Vec::new(alloc);
        'rows: while let Some(first) = rest.pop_front() {
            let number = first.epoch;
            let row = in_a_row(alloc, first, &mut rest)?;
            self.epoch(number)
                .reply_all(alloc, spare, row, &mut replies)?;
        }
        Ok(replies)
    }

    /// The read that a frame spells, if its epoch is kept.
    fn read(&self, alloc: Global, spare: &mut Spare, frame: &[u8]) -> Result<ReadFrame, ServeError>
        ensures asked { IfOk result (IsAsked self.now frame.now) }
        ensures kept { OnOk result (serve_refusal self.now frame.now ≡ None) }
        ensures refused { IfErr result (IsServeRefusal (serve_refusal self.now frame.now)) }
    {
        let read = decode_read_with(alloc, spare, self.shape(), frame)?;
        self.check(read.epoch)?;
        Ok(read)
    }

    /// The reads that these frames spell, if the epoch of each is kept.
    fn read_all(
        &self,
        alloc: Global,
        spare: &mut Spare,
        frames: &[Bytes],
    ) -> Result<Vec<ReadFrame>, ServeError>
        ensures asked { IfOk result (λ reads. AreAsked self.now frames.now reads.items) }
        ensures kept { OnOk result (first_refusal self.now frames.now ≡ None) }
        ensures refused { IfErr result (IsServeRefusal (first_refusal self.now frames.now)) }
    {
        let mut reads = Vec::new(alloc);
        for frame in frames {
            reads.push(self.read(alloc, spare, frame.as_slice())?)?;
        }
        Ok(reads)
    }
}

/// This read, and after it those of the others that name its epoch in a row.
fn in_a_row(
    alloc: Global,
    first: ReadFrame,
    rest: &mut VecDeque<ReadFrame>,
) -> Result<Vec<ReadFrame>, Memory>
    ensures some { IfOk result (λ row. 0 < length row.items) }
    ensures same { IfOk result (λ row. AllByRecursion (λ r. r.epoch ≡ first.epoch) row.items) }
    ensures taken { IfOk result (λ row. first ∷ rest.old.items ≡ row.items ++ rest.new.items) }
{
    let number = first.epoch;
    let mut row = Vec::new(alloc);
    row.push(first)?;
    'row: while let Some(read) = rest.pop_front_if(|read| read.epoch == number) {
        row.push(read)?;
    }
    Ok(row)
}
