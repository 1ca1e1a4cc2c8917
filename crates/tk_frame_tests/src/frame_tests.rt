use crate::shapes::small;
use std::alloc::{AllocError, Global};
use std::test::Fail;
use tk_frames::{
    FrameError, Name, WriteFrame, decode_placed, decode_read, decode_reply, decode_write,
    encode_placed, encode_read, encode_record, encode_reply, encode_write,
};
use tk_shape::Shape;

fn small_shape() -> Result<Shape, Fail> {
    Ok(small(1).ok().ok_or("shape")?)
}

/// Bytes, with zeros after them up to a length.
pub(crate) fn padded(alloc: Global, front: &[u8], len: usize) -> Result<Vec<u8>, AllocError> {
    let mut bytes = Vec::from_slice(alloc, front)?;
    bytes.resize(len, 0)?;
    Ok(bytes)
}

#[derive(Clone, Copy)]
enum Frame {
    Placed,
    Write,
    Read,
    Reply,
}

use Frame::{Placed, Read, Reply, Write};

/// Appends what bytes decode to, spelled again.
fn spell_again(
    frame: Frame,
    shape: &Shape,
    bytes: &[u8],
    out: &mut Vec<u8>,
) -> Result<(), FrameError> {
    let alloc = *out.allocator();
    match frame {
        Placed => spell_placed(alloc, shape, bytes, out),
        Write => Ok(encode_write(&decode_write(alloc, shape, bytes)?, out)?),
        Read => Ok(encode_read(&decode_read(alloc, shape, bytes)?, out)?),
        Reply => Ok(encode_reply(&decode_reply(alloc, shape, bytes)?, out)?),
    }
}

fn spell_placed(
    alloc: Global,
    shape: &Shape,
    bytes: &[u8],
    out: &mut Vec<u8>,
) -> Result<(), FrameError> {
    let placed = decode_placed(alloc, shape, bytes)?;
    Ok(encode_placed(&placed.clone()?, out)?)
}

/// The front of a frame, its length with zeros after, and the first fault that it has.
type Refused = (Frame, &'static [u8], usize, FrameError);

const REFUSED: [Refused; 21] = [
    (Read, b"", 0, FrameError::Length { want: 16, got: 0 }),
    (Read, b"", 16, FrameError::Kind { got: 0 }),
    (Read, b"\x02\x02", 16, FrameError::Version { got: 2 }),
    (
        Read,
        b"\x02\x01\0\0\0\x02",
        16,
        FrameError::Field {
            name: Name::Client,
            got: 2,
        },
    ),
    (Placed, b"", 0, FrameError::Length { want: 54, got: 0 }),
    (Placed, b"\x06", 1, FrameError::Length { want: 54, got: 1 }),
    (Placed, b"\x06\x01", 2, FrameError::Kind { got: 6 }),
    (
        Placed,
        b"\x04\x01",
        2,
        FrameError::Length { want: 14, got: 2 },
    ),
    (
        Placed,
        b"\x05\x01",
        2,
        FrameError::Length { want: 54, got: 2 },
    ),
    (Placed, b"\x04\x02", 14, FrameError::Version { got: 2 }),
    (
        Placed,
        b"\x04\x01",
        14,
        FrameError::Field {
            name: Name::Position,
            got: 0,
        },
    ),
    (
        Placed,
        b"\x04\x01\0\0\0\0\0\0\0\x07",
        14,
        FrameError::Field {
            name: Name::Position,
            got: 7,
        },
    ),
    (
        Placed,
        b"\x04\x01\0\0\0\0\0\0\0\x06",
        14,
        FrameError::Field {
            name: Name::Epoch,
            got: 0,
        },
    ),
    (
        Placed,
        b"\x04\x01\0\0\0\0\0\0\0\x06\0\0\0\x03",
        14,
        FrameError::Field {
            name: Name::Epoch,
            got: 3,
        },
    ),
    (
        Write,
        b"\x01\x01\0\0\0\x02",
        46,
        FrameError::Field {
            name: Name::Client,
            got: 2,
        },
    ),
    (
        Write,
        b"\x01\x01\0\0\0\0\0\0\0\x02",
        46,
        FrameError::Field {
            name: Name::Turn,
            got: 2,
        },
    ),
    (
        Write,
        b"\x01\x01\0\0\0\0\0\0\0\0\0\0\0\x08",
        46,
        FrameError::Field {
            name: Name::First,
            got: 8,
        },
    ),
    (
        Write,
        b"\x01\x01\0\0\0\0\0\0\0\0\0\0\0\0\0\0\0\x08",
        46,
        FrameError::Field {
            name: Name::Second,
            got: 8,
        },
    ),
    (
        Write,
        b"\x01\x01\0\0\0\0\0\0\0\0\0\0\0\0\0\0\0\0\0\0\0\x40",
        46,
        FrameError::Field {
            name: Name::Hit,
            got: 64,
        },
    ),
    (
        Write,
        b"\x01\x01\0\0\0\0\0\0\0\x02\0\0\0\0\0\0\0\0\0\0\0\x40",
        46,
        FrameError::Field {
            name: Name::Turn,
            got: 2,
        },
    ),
    (
        Reply,
        b"\x03\x01",
        333,
        FrameError::Length {
            want: 334,
            got: 333,
        },
    ),
];

/// Whether the bytes are refused for their fault.
fn is_refused(alloc: Global, shape: &Shape, case: &Refused) -> Result<bool, AllocError> {
    let (frame, front, len, error) = *case;
    let bytes = padded(alloc, front, len)?;
    let mut out = Vec::new(alloc);
    Ok(spell_again(frame, shape, &bytes, &mut out) == Err(error))
}

#[test]
fn first_fault_named(rt: HostRuntime) -> Result<(), Fail> {
    let shape = small_shape()?;
    for case in &REFUSED {
        assert!(rt; is_refused(rt.alloc(), &shape, case)?);
    }
    Ok(())
}

/// The reads of an ordinary run, those to its first server first.
const READS: [&[u8; 16]; 8] = [
    b"\x02\x01\0\0\0\0\0\0\0\0\0\0\0\0\x21\x21",
    b"\x02\x01\0\0\0\x01\0\0\0\0\0\0\0\0\x22\x22",
    b"\x02\x01\0\0\0\0\0\0\0\x01\0\0\0\x01\x23\x23",
    b"\x02\x01\0\0\0\x01\0\0\0\x01\0\0\0\x01\x24\x24",
    b"\x02\x01\0\0\0\0\0\0\0\0\0\0\0\0\x23\x23",
    b"\x02\x01\0\0\0\x01\0\0\0\0\0\0\0\0\x20\x20",
    b"\x02\x01\0\0\0\0\0\0\0\x01\0\0\0\x01\x2b\x2b",
    b"\x02\x01\0\0\0\x01\0\0\0\x01\0\0\0\x01\x26\x26",
];

#[test]
fn cut_reads(rt: HostRuntime) -> Result<(), Fail> {
    let shape = small_shape()?;
    for frame in &READS {
        for len in 0..16 {
            let error = FrameError::Length {
                want: 16,
                got: len as u64,
            };
            assert!(rt; decode_read(rt.alloc(), &shape, &frame[..len]).err() == Some(error));
        }
    }
    Ok(())
}

/// The first write of that run, its record, and the slot that a reply of it holds.
const WRITE: &[u8] =
    b"\x01\x01\0\0\0\0\0\0\0\0\0\0\0\x01\0\0\0\x01\0\0\0\x31\x31\x33\x59\x58\x31\x31\x31\x31\x31\x31\x31\x31\x31\x31\x31\x31\x31\x31\x31\x31\x31\x31\x31\x31";

const RECORD: &[u8] =
    b"\x05\x01\0\0\0\0\0\0\0\x01\0\0\0\0\0\0\0\0\0\0\0\x01\0\0\0\x01\0\0\0\x31\x31\x33\x59\x58\x31\x31\x31\x31\x31\x31\x31\x31\x31\x31\x31\x31\x31\x31\x31\x31\x31\x31\x31\x31";

const SLOT: &[u8] =
    b"\0\0\0\0\0\0\0\x01\0\0\0\x01\0\0\0\x01\x31\x33\x59\x58\x31\x31\x31\x31\x31\x31\x31\x31\x31\x31\x31\x31\x31\x31\x31\x31\x31\x31\x31\x31";

/// A reply, each bucket of which has that slot and no other.
fn reply(alloc: Global) -> Result<Vec<u8>, AllocError> {
    let mut bytes = Vec::from_slice(alloc, b"\x03\x01\0\0\0\0\0\0\0\x01\0\0\0\x01")?;
    for len in [174, 334] {
        bytes.extend_from_slice(SLOT)?;
        bytes.resize(len, 0)?;
    }
    Ok(bytes)
}

/// Frames that have no fault.
const SPELLED: [(Frame, &[u8]); 6] = [
    (Write, WRITE),
    (Placed, RECORD),
    (Placed, b"\x04\x01\0\0\0\0\0\0\0\x03\0\0\0\x01"),
    (Placed, b"\x04\x01\0\0\0\0\0\0\0\x06\0\0\0\x02"),
    (Read, b"\x02\x01\0\0\0\0\0\0\0\0\0\0\0\0\0\0"),
    (Read, b"\x02\x01\0\0\0\0\0\0\0\x01\0\0\0\x01\x23\x23"),
];

/// Whether bytes decode, and the same bytes are spelled again.
fn is_spelled_again(frame: Frame, alloc: Global, shape: &Shape, bytes: &[u8]) -> bool {
    let mut out = Vec::new(alloc);
    spell_again(frame, shape, bytes, &mut out).is_ok() && out.as_slice() == bytes
}

#[test]
fn round_trips(rt: HostRuntime) -> Result<(), Fail> {
    let shape = small_shape()?;
    for (frame, bytes) in &SPELLED {
        assert!(rt; is_spelled_again(*frame, rt.alloc(), &shape, bytes));
    }
    assert!(rt; is_spelled_again(Reply, rt.alloc(), &shape, &reply(rt.alloc())?));
    Ok(())
}

#[test]
fn record_of_a_frame(rt: HostRuntime) -> Result<(), Fail> {
    let write = decode_write(rt.alloc(), &small_shape()?, WRITE)
        .ok()
        .ok_or("write")?;
    let mut frame = Vec::new(rt.alloc());
    encode_write(&write, &mut frame).ok().ok_or("frame")?;
    let mut record = Vec::new(rt.alloc());
    encode_record(1, frame.as_slice(), &mut record)
        .ok()
        .ok_or("record")?;
    assert!(rt; record.as_slice() == RECORD);
    Ok(())
}

/// Whether that write's fields are read.
fn is_first(write: &WriteFrame) -> bool {
    (write.client, write.turn, write.first, write.second) == (0, 0, 1, 1)
        && write.hits.as_slice() == [49].as_slice()
        && write.block.as_slice() == &SLOT[16..]
}

#[test]
fn fields_of_a_write(rt: HostRuntime) -> Result<(), Fail> {
    match decode_write(rt.alloc(), &small_shape()?, WRITE) {
        Ok(write) => assert!(rt; is_first(&write)),
        Err(_) => return Err("a write".into()),
    }
    Ok(())
}
