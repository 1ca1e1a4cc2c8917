//! Frames from parts that lie elsewhere, and reads that are decoded into spare buffers.
use crate::shapes::small;
use std::alloc::Global;
use std::test::Fail;
use tk_frames::{
    LentRead, LentReply, Spare, Way, decode_read, decode_read_with, decode_reply, encode_lent_read,
    encode_lent_reply, encode_read, sized,
};
use tk_shape::{Memory, Shape};

/// The parts of a read of the small shape, told in each way.
fn parts(way: Way) -> LentRead<'static> {
    LentRead {
        client: 1,
        turn: 0,
        epoch: 2,
        way,
        seeds: (&[0; 32], &[0x2b; 32]),
        vectors: (b"\x76", b"\x08"),
    }
}

/// How a read of each kind begins, and its length.
const KINDS: [(Way, u8, usize); 3] = [
    (Way::Plain, 2, 16),
    (Way::Seeded, 6, 78),
    (Way::Shown, 7, 80),
];

#[test]
fn lent_reads_are_spelled_as_their_frames(rt: HostRuntime) -> Result<(), Memory> {
    let alloc = rt.alloc();
    for (way, kind, len) in KINDS {
        let read = parts(way);
        let mut lent = Vec::new(alloc);
        encode_lent_read(&read, &mut lent)?;
        assert!(rt; lent.len() == len && lent[0] == kind);
        let frame = read.to_frame(alloc)?;
        assert!(rt; (frame.client, frame.turn, frame.epoch) == (1, 0, 2));
        assert!(rt;
            frame.first.as_slice() == read.vectors.0 && frame.second.as_slice() == read.vectors.1
        );
    }
    Ok(())
}

#[test]
fn lent_replies_are_replies(rt: HostRuntime) -> Result<(), Fail> {
    let alloc = rt.alloc();
    let shape = small(2).ok().ok_or("shape")?;
    let first = vec![in alloc; 3u8; shape.width() as usize]?;
    let second = vec![in alloc; 5u8; shape.width() as usize]?;
    let reply = LentReply {
        client: 1,
        turn: 0,
        epoch: 2,
        sums: (&first, &second),
    };
    let mut out = Vec::new(alloc);
    encode_lent_reply(&reply, &mut out).ok().ok_or("spelled")?;
    let read = decode_reply(alloc, &shape, &out).ok().ok_or("reply")?;
    assert!(rt; (read.client, read.turn, read.epoch) == (1, 0, 2));
    assert!(rt; read.first.as_slice() == first.as_slice());
    assert!(rt; read.second.as_slice() == second.as_slice());
    Ok(())
}

/// Whether bytes are read alike with spare buffers and without. What the read had is spare afterwards.
fn alike(alloc: Global, spare: &mut Spare, shape: &Shape, bytes: &[u8]) -> Option<bool> {
    let plain = decode_read(alloc, shape, bytes).ok()?;
    let read = decode_read_with(alloc, spare, shape, bytes).ok()?;
    let (mut one, mut other) = (Vec::new(alloc), Vec::new(alloc));
    encode_read(&plain, &mut one).ok()?;
    encode_read(&read, &mut other).ok()?;
    let same = plain.first.as_slice() == read.first.as_slice()
        && plain.second.as_slice() == read.second.as_slice();
    spare.vectors.push(read.first.into_vec()).ok()?;
    spare.vectors.push(read.second.into_vec()).ok()?;
    read.seeds.give_back(&mut spare.seeds).ok()?;
    Some(same && one.as_slice() == other.as_slice())
}

#[test]
fn reads_are_decoded_into_spare_buffers(rt: HostRuntime) -> Result<(), Memory> {
    let alloc = rt.alloc();
    let shape = small(2)?;
    let mut spare = Spare::new(alloc);
    for (way, _kind, _len) in KINDS {
        let mut bytes = Vec::new(alloc);
        let read = LentRead {
            seeds: (&[0; 32], &[0; 32]),
            ..parts(way)
        };
        encode_lent_read(&read, &mut bytes)?;
        assert!(rt; alike(alloc, &mut spare, &shape, &bytes) == Some(true));
        bytes.truncate(15);
        assert!(rt; alike(alloc, &mut spare, &shape, &bytes).is_none());
    }
    assert!(rt; (spare.vectors.len(), spare.seeds.len()) == (2, 1));
    Ok(())
}

#[test]
fn buffers_have_the_length_that_is_wanted(rt: HostRuntime) -> Result<(), Memory> {
    let alloc = rt.alloc();
    let mut spare = Vec::new(alloc);
    for size in [4, 0, 9, 9] {
        let buffer = sized(alloc, &mut spare, size)?;
        assert!(rt; buffer.len() == size && spare.is_empty());
        spare.push(buffer)?;
    }
    Ok(())
}
