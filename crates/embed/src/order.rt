//! What gives writes and marks their positions: for each the frame that all servers take.
ghost use Rattle.std.specs.Prelude.{◌≡◌, IfOk, IfErr};
ghost use Rattle.tk_frames.specs.declared.entry.Entry.TheVariants.{Write, Mark};
ghost use Rattle.tk_frames.specs.declared.write_frame.WriteFrame.{WriteFrame};
ghost use Rattle.tk_frames.specs.Ranges.{IsWrite};
ghost use Rattle.tk_frames.specs.Spelling.{write_frame, entry_frame};

use crate::fault::Fault;
use std::alloc::Global;
use tk_frames::{Entry, Placed, decode_write, encode_placed};
use tk_shape::{Memory, Shape};

/// The frame of a record: of what a client's write frame spells, at a position.
pub fn record_frame(
    alloc: Global,
    shape: &Shape,
    position: u64,
    frame: &[u8],
) -> Result<Vec<u8>, Fault>
    ensures record { (w : WriteFrame) → IsWrite shape.now w → frame.now ≡ write_frame w
        → IfOk result (λ out. out.items ≡ entry_frame position (Write w)) }
    ensures due { (w : WriteFrame) → IsWrite shape.now w → frame.now ≡ write_frame w
        → IfErr result (λ e. e ≡ Fault.Memory) }
{
    let write = decode_write(alloc, shape, frame)?;
    let mut out = Vec::new(alloc);
    let entry = Entry::Write(write);
    encode_placed(&Placed { position, entry }, &mut out)?;
    Ok(out)
}

/// The frame of a mark: of the epoch that has what was written before it.
pub fn mark_frame(alloc: Global, position: u64, epoch: u32) -> Result<Vec<u8>, Memory>
    ensures { IfOk result (λ out. out.items ≡ entry_frame position (Mark epoch)) }
{
    let mut out = Vec::new(alloc);
    let entry = Entry::Mark(epoch);
    encode_placed(&Placed { position, entry }, &mut out)?;
    Ok(out)
}
