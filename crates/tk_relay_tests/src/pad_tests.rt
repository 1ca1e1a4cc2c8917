//! Which bytes are pads, and what pads they are.
use crate::reads::{bundled, pads_len, pads_of, shape_of, unmasked};
use std::alloc::Global;
use std::test::Fail;
use tk_frames::decode_reply;
use tk_relay::{PadError, Pads, Part};
use tk_shape::{Bytes, Shape};

/// Whether bytes of a length are refused for it, or taken where it is that of the shape.
fn is_tried(alloc: Global, shape: &Shape, want: usize, got: usize) -> Option<bool> {
    let bytes = vec![in alloc; 7u8; got].ok()?;
    let refused = Pads::from_bytes(shape, bytes).err();
    let other = PadError {
        want: want as u64,
        got: got as u64,
    };
    Some(refused == if got == want { None } else { Some(other) })
}

#[test]
fn pads_have_the_length_of_the_shape(rt: HostRuntime) -> Result<(), Fail> {
    for (servers, want) in [(2, 322), (8, 2254)] {
        let shape = shape_of(1, servers, 8).ok_or("shape")?;
        assert!(rt; pads_len(&shape) == want);
        for got in 0..want + 3 {
            assert!(rt;
                is_tried(rt.alloc(), &shape, want, got) == Some(true),
                "{got}"
            );
        }
    }
    Ok(())
}

/// Pads of three servers, as far as the tests look at them: the request pads, and of the reply pads XORed the first
/// bytes of either half.
#[derive(Clone, Copy)]
struct Sample {
    requests: [u8; 4],
    first: [u8; 4],
    second: [u8; 4],
}

/// What a client under these pads puts on vectors and takes off sums.
fn has_sample(alloc: Global, shape: &Shape, pads: &Pads, sample: &Sample) -> Option<bool> {
    let bundle = bundled(alloc, shape, 0, &[[0, 0]; 3], pads)?;
    let frames = unmasked(alloc, shape, &zeros(alloc, shape)?, pads)?;
    let reply = decode_reply(alloc, shape, frames.first()?.as_slice()).ok()?;
    Some(
        bundle.as_slice().ends_with(&sample.requests)
            && reply.first.as_slice().starts_with(&sample.first)
            && reply.second.as_slice().starts_with(&sample.second),
    )
}

/// One reply of zeros.
fn zeros(alloc: Global, shape: &Shape) -> Option<Part> {
    let width = shape.width() as usize;
    Some(Part {
        client: 0,
        turn: 0,
        epoch: 0,
        first: Bytes::from_vec(vec![in alloc; 0u8; width].ok()?),
        second: Bytes::from_vec(vec![in alloc; 0u8; width].ok()?),
    })
}

/// Those of a seed of bytes 7, by another program for ChaCha20, in turns 0 and 3.
const KEYED: [(u32, Sample); 2] = [
    (
        0,
        Sample {
            requests: [0xbe, 0x6d, 0x31, 0x5b],
            first: [0x55, 0x21, 0xd0, 0xa9],
            second: [0x36, 0xda, 0xea, 0x64],
        },
    ),
    (
        3,
        Sample {
            requests: [0xcd, 0x8b, 0x53, 0x2f],
            first: [0xfa, 0xcc, 0x1f, 0x1c],
            second: [0x07, 0xbf, 0xa2, 0x34],
        },
    ),
];

#[test]
fn pads_come_from_a_seed(rt: HostRuntime) -> Result<(), Fail> {
    let alloc = rt.alloc();
    for format in [1, 2] {
        let shape = shape_of(format, 3, 8).ok_or("shape")?;
        for (turn, sample) in KEYED {
            let pads = Pads::keyed(alloc, &shape, &[7; 32], turn)
                .ok()
                .ok_or("pads")?;
            assert!(rt;
                has_sample(alloc, &shape, &pads, &sample) == Some(true),
                "{turn}"
            );
        }
    }
    Ok(())
}

/// The request pads of bytes come first.
const GIVEN: Sample = Sample {
    requests: [1, 2, 3, 4],
    first: [5 ^ 9, 6 ^ 9, 0, 0],
    second: [0, 0, 0, 0],
};

#[test]
fn pads_come_from_bytes(rt: HostRuntime) -> Result<(), Fail> {
    let alloc = rt.alloc();
    let shape = shape_of(1, 3, 8).ok_or("shape")?;
    let pads = pads_of(alloc, &shape, &[1, 2, 3, 4, 5, 6], 9).ok_or("pads")?;
    assert!(rt; has_sample(alloc, &shape, &pads, &GIVEN) == Some(true));
    assert!(rt; *pads.shape() == shape);
    Ok(())
}
