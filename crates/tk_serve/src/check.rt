//! Whether a frame is the next write or read of a client.
ghost use Rattle.std.specs.Prelude.{◌≡◌, IfOk, slice_index};
ghost use Rattle.tk_serve.specs.Checked.{IsChecked, IsWriteChecked, IsReadChecked, IsRefusedForFrame};
ghost use Rattle.tk_serve.specs.Refusals.{write_misplaced, read_misplaced};

use crate::due::Due;
use crate::frame_kind::{WRITE, is_read};
use crate::refusal::Refusal;
use std::alloc::Global;
use tk_frames::{FrameError, ReadFrame, WriteFrame, decode_read, decode_write};
use tk_shape::{Memory, Shape};

/// What a frame is found to be.
#[derive(Debug, Drop)]
pub(crate) enum Checked {
    Write(WriteFrame),
    Read(ReadFrame),
    Refused(Refusal),
}

/// The write or read that is due, if the frame is one.
pub(crate) fn check(
    alloc: Global,
    shape: &Shape,
    due: &Due,
    frame: &[u8],
) -> Result<Checked, Memory>
    ensures { IfOk result (IsChecked shape.now due.now frame.now) }
{
    let kind = first_byte(frame);
    if kind == WRITE {
        return check_write(alloc, shape, due, frame);
    }
    if is_read(shape, kind) {
        return check_read(alloc, shape, due, frame);
    }
    Ok(Checked::Refused(Refusal::Kind))
}

fn check_write(alloc: Global, shape: &Shape, due: &Due, frame: &[u8]) -> Result<Checked, Memory>
    ensures { IfOk result (IsWriteChecked shape.now due.now frame.now) }
{
    let write = match decode_write(alloc, shape, frame) {
        Ok(write) => write,
        Err(error) => return refused(error),
    };
    match misplaced_write(due, &write) {
        Some(cause) => Ok(Checked::Refused(cause)),
        None => Ok(Checked::Write(write)),
    }
}

fn check_read(alloc: Global, shape: &Shape, due: &Due, frame: &[u8]) -> Result<Checked, Memory>
    ensures { IfOk result (IsReadChecked shape.now due.now frame.now) }
{
    let read = match decode_read(alloc, shape, frame) {
        Ok(read) => read,
        Err(error) => return refused(error),
    };
    match misplaced_read(shape, due, &read) {
        Some(cause) => Ok(Checked::Refused(cause)),
        None => Ok(Checked::Read(read)),
    }
}

/// The first byte; 0, with which no frame begins, where there is none.
fn first_byte(frame: &[u8]) -> u8
    ensures { result ≡ slice_index frame.now 0 }
{
    match frame {
        [kind, ..] => *kind,
        [] => 0,
    }
}

/// A frame with a fault of its own.
fn refused(error: FrameError) -> Result<Checked, Memory>
    ensures { IfOk result (IsRefusedForFrame error) }
{
    match Refusal::of(error) {
        Some(cause) => Ok(Checked::Refused(cause)),
        None => Err(Memory),
    }
}

/// Why a write isn't the one that is due.
fn misplaced_write(due: &Due, write: &WriteFrame) -> Option<Refusal>
    ensures { result ≡ write_misplaced due.now write.now }
{
    if write.client != due.client {
        return Some(Refusal::OtherClient);
    }
    if write.turn != due.write {
        return Some(Refusal::OtherTurn);
    }
    None
}

/// Why a read isn't the one that is due.
fn misplaced_read(shape: &Shape, due: &Due, read: &ReadFrame) -> Option<Refusal>
    ensures { result ≡ read_misplaced shape.now due.now read.now }
{
    if read.client != due.client {
        return Some(Refusal::OtherClient);
    }
    if read.turn != due.read {
        return Some(Refusal::OtherTurn);
    }
    if read.epoch != read.turn / shape.ticks {
        return Some(Refusal::OtherEpoch);
    }
    None
}
