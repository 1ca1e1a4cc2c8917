//! Decoders. What one reads is spelled so and in range (`found`), and what is in range is read from its
//! spelling, unless memory runs out (`only`). Other bytes are refused for their first fault, in the order of
//! `Length`, `Kind`, `Version` and `Field` (`kept`, `refused`). Memory is taken only once no fault is found.
ghost use Rattle.std.specs.Prelude.{◌≡◌, None, IfOk, IfErr, OnOk};
ghost use Rattle.tk_frames.specs.declared.write_frame.WriteFrame.{WriteFrame};
ghost use Rattle.tk_frames.specs.declared.read_frame.ReadFrame.{ReadFrame};
ghost use Rattle.tk_frames.specs.declared.reply_frame.ReplyFrame.{ReplyFrame};
ghost use Rattle.tk_frames.specs.declared.entry.Placed.{Placed};
ghost use Rattle.tk_frames.specs.Spelling.{write_frame, read_frame, reply_frame, placed_frame};
ghost use Rattle.tk_frames.specs.Ranges.{IsWrite, IsRead, IsReply, IsPlaced};
ghost use Rattle.tk_frames.specs.Faults.{first_fault, write_checks, read_checks, reply_checks};
ghost use Rattle.tk_frames.specs.Faults.{placed_checks, GivesUnlessMemory, IsRefusal};

use crate::check::{check_mark, check_read, check_record, check_reply, check_write};
use crate::spare::Spare;
use crate::value::{mark_of, read_of, record_of, reply_of, write_of};
use crate::{FrameError, Placed, ReadFrame, ReplyFrame, WriteFrame, kind};
use std::alloc::Global;
use tk_shape::Shape;

/// The write that the bytes spell, if they spell one in range for the shape.
pub fn decode_write(alloc: Global, shape: &Shape, bytes: &[u8]) -> Result<WriteFrame, FrameError>
    ensures found { IfOk result (λ w. IsWrite shape.now w × (bytes.now ≡ write_frame w)) }
    ensures only { (w : WriteFrame) → IsWrite shape.now w → bytes.now ≡ write_frame w → GivesUnlessMemory result w }
    ensures kept { OnOk result (first_fault (write_checks shape.now bytes.now) ≡ None) }
    ensures refused { IfErr result (λ e. IsRefusal (first_fault (write_checks shape.now bytes.now)) e) }
{
    check_write(shape, bytes)?;
    Ok(write_of(alloc, shape, &bytes[2..])?)
}

/// The entry and position that the bytes spell, if they spell a mark or a record in range for the shape. The kind is
/// looked at before the length, since a mark and a record differ in length.
pub fn decode_placed(alloc: Global, shape: &Shape, bytes: &[u8]) -> Result<Placed, FrameError>
    ensures found { IfOk result (λ p. IsPlaced shape.now p × (bytes.now ≡ placed_frame p)) }
    ensures only { (p : Placed) → IsPlaced shape.now p → bytes.now ≡ placed_frame p → GivesUnlessMemory result p }
    ensures kept { OnOk result (first_fault (placed_checks shape.now bytes.now) ≡ None) }
    ensures refused { IfErr result (λ e. IsRefusal (first_fault (placed_checks shape.now bytes.now)) e) }
{
    match bytes {
        [kind::MARK, _, ..] => {
            check_mark(shape, bytes)?;
            Ok(mark_of(bytes))
        }
        [kind::RECORD, _, ..] => {
            check_record(shape, bytes)?;
            Ok(record_of(alloc, shape, bytes)?)
        }
        [got, _, ..] => Err(FrameError::Kind { got: *got }),
        _ => Err(FrameError::Length {
            want: u64::from(shape.record_len()),
            got: bytes.len() as u64,
        }),
    }
}

/// The read that the bytes spell, if they spell one in range for the shape. In format 2 the kind is looked at before the
/// length, since reads differ in length.
pub fn decode_read(alloc: Global, shape: &Shape, bytes: &[u8]) -> Result<ReadFrame, FrameError>
    ensures found { IfOk result (λ r. IsRead shape.now r × (bytes.now ≡ read_frame r)) }
    ensures only { (r : ReadFrame) → IsRead shape.now r → bytes.now ≡ read_frame r → GivesUnlessMemory result r }
    ensures kept { OnOk result (first_fault (read_checks shape.now bytes.now) ≡ None) }
    ensures refused { IfErr result (λ e. IsRefusal (first_fault (read_checks shape.now bytes.now)) e) }
{
    decode_read_with(alloc, &mut Spare::new(alloc), shape, bytes)
}

/// The same read, with its parts in spare buffers as long as there are any.
pub fn decode_read_with(
    alloc: Global,
    spare: &mut Spare,
    shape: &Shape,
    bytes: &[u8],
) -> Result<ReadFrame, FrameError>
    ensures found { IfOk result (λ r. IsRead shape.now r × (bytes.now ≡ read_frame r)) }
    ensures only { (r : ReadFrame) → IsRead shape.now r → bytes.now ≡ read_frame r → GivesUnlessMemory result r }
    ensures kept { OnOk result (first_fault (read_checks shape.now bytes.now) ≡ None) }
    ensures refused { IfErr result (λ e. IsRefusal (first_fault (read_checks shape.now bytes.now)) e) }
{
    check_read(shape, bytes)?;
    Ok(read_of(alloc, spare, shape, bytes)?)
}

/// The reply that the bytes spell, if they spell one in range for the shape.
pub fn decode_reply(alloc: Global, shape: &Shape, bytes: &[u8]) -> Result<ReplyFrame, FrameError>
    ensures found { IfOk result (λ r. IsReply shape.now r × (bytes.now ≡ reply_frame r)) }
    ensures only { (r : ReplyFrame) → IsReply shape.now r → bytes.now ≡ reply_frame r → GivesUnlessMemory result r }
    ensures kept { OnOk result (first_fault (reply_checks shape.now bytes.now) ≡ None) }
    ensures refused { IfErr result (λ e. IsRefusal (first_fault (reply_checks shape.now bytes.now)) e) }
{
    check_reply(shape, bytes)?;
    Ok(reply_of(alloc, shape, bytes)?)
}
