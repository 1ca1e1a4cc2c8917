//! Reads of format 2, which tell most servers their vectors by seeds.
use crate::frame_tests::padded;
use crate::shapes::small;
use std::alloc::{AllocError, Global};
use tk_frames::{FrameError, Name, Seeds, decode_read, encode_read};
use tk_shape::{Memory, Shape};

/// The format, the front of a read, its length with zeros after it, and its first fault.
type Refused = (u32, &'static [u8], usize, FrameError);

const REFUSED: [Refused; 15] = [
    (1, b"\x06\x01", 16, FrameError::Kind { got: 6 }),
    (1, b"\x07\x01", 16, FrameError::Kind { got: 7 }),
    (1, b"\x06\x01", 78, FrameError::Length { want: 16, got: 78 }),
    (1, b"\x07\x01", 80, FrameError::Length { want: 16, got: 80 }),
    (2, b"", 0, FrameError::Length { want: 16, got: 0 }),
    (2, b"\x08\x01", 2, FrameError::Kind { got: 8 }),
    (2, b"\x03\x01", 334, FrameError::Kind { got: 3 }),
    (2, b"\x02\x01", 2, FrameError::Length { want: 16, got: 2 }),
    (2, b"\x06\x01", 2, FrameError::Length { want: 78, got: 2 }),
    (2, b"\x07\x01", 2, FrameError::Length { want: 80, got: 2 }),
    (2, b"\x06\x01", 79, FrameError::Length { want: 78, got: 79 }),
    (2, b"\x07\x02", 78, FrameError::Length { want: 80, got: 78 }),
    (2, b"\x07\x02", 80, FrameError::Version { got: 2 }),
    (
        2,
        b"\x06\x01\0\0\0\x02",
        78,
        FrameError::Field {
            name: Name::Client,
            got: 2,
        },
    ),
    (
        2,
        b"\x07\x01\0\0\0\0\0\0\0\x01\0\0\0\x03",
        80,
        FrameError::Field {
            name: Name::Epoch,
            got: 3,
        },
    ),
];

/// Whether the bytes are refused for their fault.
fn is_refused(alloc: Global, case: &Refused) -> Result<bool, Memory> {
    let (format, front, len, error) = *case;
    let shape = if format == 2 { small(2)? } else { small(1)? };
    let bytes = padded(alloc, front, len)?;
    Ok(decode_read(alloc, &shape, &bytes).err() == Some(error))
}

#[test]
fn first_fault_named(rt: HostRuntime) -> Result<(), Memory> {
    for case in &REFUSED {
        assert!(rt; is_refused(rt.alloc(), case)?);
    }
    Ok(())
}

/// A kind, the length of its frames, and the vectors of one that has zeros alone after its asker.
const KINDS: [(u8, usize, [u8; 2]); 3] = [(2, 16, [0, 0]), (6, 78, [0x76, 0x76]), (7, 80, [0, 0])];

/// The frame of a kind whose fields are zeros, cut to a length.
fn of_zeros(alloc: Global, kind: u8, len: usize) -> Result<Vec<u8>, AllocError> {
    padded(alloc, &[kind, 1], len)
}

/// The kind of a read whose seeds, if it has any, are zeros.
fn kind_of(seeds: &Seeds) -> Option<u8> {
    match seeds {
        Seeds::Plain => Some(2),
        Seeds::Seeded(seeds) if seeds.as_slice() == [0; 64].as_slice() => Some(6),
        Seeds::Shown(seeds) if seeds.as_slice() == [0; 64].as_slice() => Some(7),
        _ => None,
    }
}

/// Whether such a frame is read with these vectors, and spelled again.
fn is_read(alloc: Global, shape: &Shape, kind: u8, bytes: &[u8], vectors: [u8; 2]) -> bool {
    let Ok(read) = decode_read(alloc, shape, bytes) else {
        return false;
    };
    let mut out = Vec::new(alloc);
    (read.client, read.turn, read.epoch) == (0, 0, 0)
        && kind_of(&read.seeds) == Some(kind)
        && read.first.as_slice() == &vectors[..1]
        && read.second.as_slice() == &vectors[1..]
        && encode_read(&read, &mut out).is_ok()
        && out.as_slice() == bytes
}

#[test]
fn reads_of_each_kind(rt: HostRuntime) -> Result<(), Memory> {
    let shape = small(2)?;
    for (kind, len, vectors) in KINDS {
        let frame = of_zeros(rt.alloc(), kind, len)?;
        assert!(rt; is_read(rt.alloc(), &shape, kind, &frame, vectors));
    }
    Ok(())
}

#[test]
fn cut_reads_of_each_kind(rt: HostRuntime) -> Result<(), Memory> {
    let shape = small(2)?;
    for (kind, whole, _) in KINDS {
        for len in 0..whole {
            let frame = of_zeros(rt.alloc(), kind, len)?;
            let want = if len < 2 { 16 } else { whole as u64 };
            let got = len as u64;
            let error = FrameError::Length { want, got };
            assert!(rt; decode_read(rt.alloc(), &shape, &frame).err() == Some(error));
        }
    }
    Ok(())
}
