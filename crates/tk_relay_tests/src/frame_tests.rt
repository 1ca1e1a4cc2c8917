//! The frames of relayed reads, and what is refused of them.
use crate::reads::{bundled, pads_of, shape_of};
use crate::serving::mix;
use std::alloc::Global;
use std::test::Fail;
use tk_frames::{FrameError, Name};
use tk_relay::{
    Part, as_many_pads, decode_masked_reply, decode_part, encode_masked_reply, encode_part,
    moved_back, pads_are_bytes, replies_join, same_sight, split, tap_gains_sight,
};
use tk_shape::{Bytes, Shape};

/// The vectors of a read of bucket 3 twice, and those of a read of bucket 5 twice, drawn alike.
const ALIKE: [[[u8; 2]; 2]; 2] = [[[0x21, 0x22], [0x29, 0x2a]], [[0x21, 0x22], [0x01, 0x02]]];

/// The bundle of the first read with the request pads 50 and 51, and of the second with what those become.
const BUNDLE: [u8; 18] = [
    8, 1, 0, 0, 0, 0, 0, 0, 0, 0, 0, 0, 0, 0, 0x21, 0x22, 0x79, 0x7b,
];

/// The request pads with which the second read's bundle is that of the first with these: the bit of the old bucket and
/// that of the new one are turned over in each.
fn moved(pads: [u8; 2]) -> [u8; 2] {
    let mut moved = pads;
    mix(&mut moved, &[1 << 3; 2]);
    mix(&mut moved, &[1 << 5; 2]);
    moved
}

#[test]
fn a_bundle_hides_the_buckets(rt: HostRuntime) -> Result<(), Fail> {
    let alloc = rt.alloc();
    let pads = [0x50, 0x51];
    assert!(rt; moved(pads) == [0x78, 0x79] && moved(moved(pads)) == pads);
    let [first, second] = ALIKE;
    for format in [1, 2] {
        let shape = shape_of(format, 2, 8).ok_or("shape")?;
        for (vectors, front) in [(first, pads), (second, moved(pads))] {
            let pads = pads_of(alloc, &shape, &front, 0).ok_or("pads")?;
            let bundle = bundled(alloc, &shape, 0, &vectors, &pads).ok_or("bundle")?;
            assert!(rt; bundle.as_slice() == BUNDLE.as_slice(), "{format}");
        }
    }
    Ok(())
}

/// A frame of a relayed read.
#[derive(Clone, Copy)]
enum Frame {
    Bundle,
    Part,
    MaskedReply,
}

/// The kind and the bytes of each, for two servers and eight buckets.
const FRAMES: [(Frame, u8, usize); 3] = [
    (Frame::Bundle, 8, 18),
    (Frame::Part, 9, 16),
    (Frame::MaskedReply, 10, 334),
];

/// Why bytes aren't one.
fn fault_of(alloc: Global, shape: &Shape, frame: Frame, bytes: &[u8]) -> Option<FrameError> {
    match frame {
        Frame::Bundle => split(alloc, shape, bytes).err(),
        Frame::Part => decode_part(alloc, shape, bytes).err(),
        Frame::MaskedReply => decode_masked_reply(alloc, shape, bytes).err(),
    }
}

/// A frame of a kind and so many bytes, of client 0's read in turn 0 over epoch 0.
fn framed(alloc: Global, kind: u8, len: usize) -> Option<Vec<u8>> {
    let mut bytes = Vec::from_slice(alloc, &[kind, 1, 0, 0, 0, 0, 0, 0, 0, 0, 0, 0, 0, 0]).ok()?;
    bytes.resize(len, 5).ok()?;
    Some(bytes)
}

#[test]
fn frames_of_another_length_are_refused(rt: HostRuntime) -> Result<(), Fail> {
    let alloc = rt.alloc();
    for format in [1, 2] {
        let shape = shape_of(format, 2, 8).ok_or("shape")?;
        for (frame, kind, want) in FRAMES {
            let whole = framed(alloc, kind, want).ok_or("whole")?;
            assert!(rt; fault_of(alloc, &shape, frame, whole.as_slice()).is_none());
            for got in 0..want + 2 {
                if got == want {
                    continue;
                }
                let mut other = framed(alloc, kind, want).ok_or("other")?;
                other.resize(got, 5)?;
                let fault = FrameError::Length {
                    want: want as u64,
                    got: got as u64,
                };
                assert!(rt; fault_of(alloc, &shape, frame, other.as_slice()) == Some(fault));
            }
        }
    }
    Ok(())
}

/// Bytes in the head of a frame that are wrong, and the fault of each: it comes before those above it.
const HEADS: [(usize, u8, FrameError); 5] = [
    (
        13,
        5,
        FrameError::Field {
            name: Name::Epoch,
            got: 5,
        },
    ),
    (
        9,
        4,
        FrameError::Field {
            name: Name::Turn,
            got: 4,
        },
    ),
    (
        5,
        2,
        FrameError::Field {
            name: Name::Client,
            got: 2,
        },
    ),
    (1, 2, FrameError::Version { got: 2 }),
    (0, 3, FrameError::Kind { got: 3 }),
];

#[test]
fn wrong_heads_are_refused(rt: HostRuntime) -> Result<(), Fail> {
    let alloc = rt.alloc();
    for format in [1, 2] {
        let shape = shape_of(format, 2, 8).ok_or("shape")?;
        for (frame, kind, len) in FRAMES {
            let mut bytes = framed(alloc, kind, len).ok_or("bytes")?;
            for (place, wrong, fault) in HEADS {
                *bytes.get_mut(place).ok_or("place")? = wrong;
                assert!(rt; fault_of(alloc, &shape, frame, bytes.as_slice()) == Some(fault));
            }
        }
    }
    Ok(())
}

/// A part with so many bytes for either bucket.
fn part_of(alloc: Global, size: usize) -> Option<Part> {
    Some(Part {
        client: 1,
        turn: 1,
        epoch: 2,
        first: Bytes::from_vec(vec![in alloc; 6u8; size].ok()?),
        second: Bytes::from_vec(vec![in alloc; 7u8; size].ok()?),
    })
}

/// What a frame of a part, or of a reply to one, begins with, of client 1's read in turn 1 over epoch 2.
fn head_of(kind: u8) -> [u8; 14] {
    [kind, 1, 0, 0, 0, 1, 0, 0, 0, 1, 0, 0, 0, 2]
}

fn are_same(a: &Part, b: &Part) -> bool {
    a.client == b.client
        && a.turn == b.turn
        && a.epoch == b.epoch
        && a.first.as_slice() == b.first.as_slice()
        && a.second.as_slice() == b.second.as_slice()
}

#[test]
fn parts_come_back_from_their_frames(rt: HostRuntime) -> Result<(), Fail> {
    let alloc = rt.alloc();
    let shape = shape_of(1, 8, 64).ok_or("shape")?;
    let part = part_of(alloc, 8).ok_or("part")?;
    let mut frame = Vec::new(alloc);
    encode_part(&part, &mut frame).ok().ok_or("frame")?;
    assert!(rt; frame.len() == 30 && frame.as_slice().starts_with(&head_of(9)));
    let back = decode_part(alloc, &shape, frame.as_slice())
        .ok()
        .ok_or("back")?;
    assert!(rt; are_same(&part, &back));
    let reply = part_of(alloc, 160).ok_or("reply")?;
    let mut frame = Vec::new(alloc);
    encode_masked_reply(&reply, &mut frame).ok().ok_or("frame")?;
    assert!(rt; frame.len() == 334 && frame.as_slice().starts_with(&head_of(10)));
    let back = decode_masked_reply(alloc, &shape, frame.as_slice())
        .ok()
        .ok_or("back")?;
    assert!(rt; are_same(&reply, &back));
    Ok(())
}

#[test]
fn laws_of_relayed_reads_can_be_called(_rt: HostRuntime) {
    same_sight();
    moved_back();
    pads_are_bytes();
    as_many_pads();
    replies_join();
    tap_gains_sight();
}
