//! Reads by way of server 1, against the servers' own replies.
ghost use Rattle.std.specs.Prelude.{◌≡◌, ◌+◌};

use crate::reads::{bundled, frames_of, unmasked};
use crate::serving::{block_of, joined, mix, served};
use crate::sets::{blank_of, set_of};
use std::alloc::Global;
use std::marker::Brand;
use std::process::Abort;
use std::sync::Wait;
use std::test::Fail;
use tk_cluster::EpochSet;
use tk_frames::{ReadFrame, Seeds, decode_reply, encode_read};
use tk_order::{Blank, Naming};
use tk_relay::{Pads, PartError, split};
use tk_shape::{Bytes, Shape};

/// The servers' own replies to a read.
fn own(alloc: Global, set: &EpochSet, vectors: &[[u8; 2]]) -> Option<Vec<Bytes>> {
    let frames = frames_of(alloc, set.shape(), 1, vectors).ok()?;
    let mut replies = Vec::new(alloc);
    let mut server = 0u32;
    for frame in frames.iter() {
        server = server.saturating_add(1);
        replies.push(own_reply(alloc, set, server, frame)?).ok()?;
    }
    Some(replies)
}

/// A server's own reply to a frame that tells its vectors as they are.
fn own_reply(alloc: Global, set: &EpochSet, server: u32, frame: &ReadFrame) -> Option<Bytes> {
    if server < 1 || server > set.servers() {
        return None;
    }
    let mut bytes = Vec::new(alloc);
    match &frame.seeds {
        Seeds::Plain => encode_read(frame, &mut bytes).ok()?,
        _ => return None,
    }
    set.answer(server, bytes.as_slice()).ok()
}

/// The sums of replies, joined, those of the first bucket before those of the second.
fn sums_of(alloc: Global, shape: &Shape, frames: &[Bytes]) -> Option<Vec<u8>> {
    let width = shape.width() as usize;
    let mut first = vec![in alloc; 0u8; width].ok()?;
    let mut second = vec![in alloc; 0u8; width].ok()?;
    for frame in frames {
        let reply = decode_reply(alloc, shape, frame.as_slice()).ok()?;
        mix(first.as_mut_slice(), reply.first.as_slice());
        mix(second.as_mut_slice(), reply.second.as_slice());
    }
    first.append(&mut second).ok()?;
    Some(first)
}

/// What a client reads by way of server 1.
fn read_by_way(alloc: Global, set: &EpochSet, vectors: &[[u8; 2]]) -> Option<Vec<u8>> {
    let shape = set.shape();
    let pads = Pads::keyed(alloc, shape, &[7; 32], 0).ok()?;
    let bundle = bundled(alloc, shape, 1, vectors, &pads)?;
    let one = joined(alloc, set, bundle.as_slice(), &pads)?;
    let frames = unmasked(alloc, shape, &one, &pads)?;
    if frames.len() != shape.servers as usize {
        return None;
    }
    sums_of(alloc, shape, frames.as_slice())
}

/// It is what the servers' own replies give, and of a write the block of its bucket.
fn reads_alike<R: Abort + AllocGlobal>(
    rt: &R,
    set: &EpochSet,
    vectors: &[[u8; 2]],
) -> Result<(), Fail> {
    let alloc = rt.alloc();
    let read = read_by_way(alloc, set, vectors).ok_or("read")?;
    let replies = own(alloc, set, vectors).ok_or("replies")?;
    let want = sums_of(alloc, set.shape(), replies.as_slice()).ok_or("want")?;
    assert!(rt; read.as_slice() == want.as_slice());
    for server in 1..set.servers() + 1 {
        let block = block_of(set, server, 2).ok_or("block")?;
        assert!(rt; read.as_slice().starts_with(block), "{server}");
        assert!(rt; block.ends_with(&[0; 120]) && block.get(39) == Some(&1));
    }
    Ok(())
}

/// A part that names the epoch before the set's or the one after it is refused by each server.
fn other_epochs_are_refused<R: Abort + AllocGlobal>(
    rt: &R,
    set: &EpochSet,
    vectors: &[[u8; 2]],
) -> Result<(), Fail> {
    let alloc = rt.alloc();
    let pads = Pads::keyed(alloc, set.shape(), &[7; 32], 0)
        .ok()
        .ok_or("pads")?;
    for got in [0, 2] {
        let bundle = bundled(alloc, set.shape(), got, vectors, &pads).ok_or("bundle")?;
        let parts = split(alloc, set.shape(), bundle.as_slice())
            .ok()
            .ok_or("parts")?;
        let mut server = 0u32;
        for part in parts.iter() {
            server = server.saturating_add(1);
            let refused = served(alloc, set, server, part, &pads).ok_or("served")?;
            assert!(rt;
                refused.err() == Some(PartError::Epoch { want: 1, got }),
                "{server}"
            );
        }
    }
    Ok(())
}

fn relayed_reads<B: Naming, R: Wait + AllocGlobal + Abort>(
    rt: &R,
    blank: Blank,
    vectors: &[[u8; 2]],
) -> Result<(), Fail>
    requires table { blank.table ≡ B.table }
    requires shape { blank.shape ≡ B.shape }
    requires seats { blank.seats ≡ B.shape.clients + 1 }
{
    let shape = blank.shape();
    let set = set_of::<B, R>(rt, blank).ok_or("set")?;
    assert!(rt; *set.shape() == shape && set.number() == 1);
    reads_alike(rt, &set, vectors)?;
    other_epochs_are_refused(rt, &set, vectors)
}

#[test]
fn reads_by_way_of_the_first_of_two_servers(rt: HostRuntime) -> Result<(), Fail> {
    let Some(blank) = blank_of(rt.alloc(), 1, 2, 8) else {
        assert!(rt; false);
        return Ok(());
    };
    relayed_reads::<Brand, _>(&rt, blank, &[[0x21, 0x22], [0x25, 0x02]])
}

/// Vectors for eight servers, which join to those of buckets 2 and 5.
const EIGHT: [[u8; 2]; 8] = [
    [0x11, 0xa1],
    [0x23, 0x52],
    [0x47, 0x39],
    [0x8f, 0xcc],
    [0x10, 0x07],
    [0x6e, 0xf0],
    [0xd5, 0x18],
    [0x55, 0xc9],
];

#[test]
fn reads_by_way_of_the_first_of_eight_servers(rt: HostRuntime) -> Result<(), Fail> {
    let Some(blank) = blank_of(rt.alloc(), 1, 8, 8) else {
        assert!(rt; false);
        return Ok(());
    };
    relayed_reads::<Brand, _>(&rt, blank, &EIGHT)
}

/// Vectors of two bytes, so that bucket 10 is read with bucket 2: nothing lies in it.
#[test]
fn reads_by_way_of_a_server_in_format_2(rt: HostRuntime) -> Result<(), Fail> {
    let Some(blank) = blank_of(rt.alloc(), 2, 8, 16) else {
        assert!(rt; false);
        return Ok(());
    };
    relayed_reads::<Brand, _>(&rt, blank, &EIGHT)
}
