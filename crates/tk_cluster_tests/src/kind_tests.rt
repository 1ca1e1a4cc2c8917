//! A server answers reads of each kind alike, alone and together.
ghost use Rattle.std.specs.Prelude.{◌≡◌, ◌+◌};

use crate::testing::{Desk, blank_of, write};
use std::alloc::Global;
use std::marker::Brand;
use std::process::Abort;
use std::sync::{Arc, Wait};
use std::test::Fail;
use std::thread::Threads;
use tk_cluster::{EpochSet, Pass, Publisher};
use tk_order::{Blank, Naming};
use tk_shape::Bytes;

/// The kind of a read, and what comes after its asker: a vector with bucket 2 and then one with an empty bucket alone,
/// as they are, by the seeds that expand to them, and after other seeds.
const READS: [(u8, &[&[u8]]); 3] = [
    (2, &[b"\x76\x08"]),
    (6, &[&[0; 32], &[0x2b; 32]]),
    (7, &[&[0x51; 64], b"\x76\x08"]),
];

/// The frames of those reads, of client 1 in turn 3 over epoch 1.
fn reads(alloc: Global) -> Option<Vec<Bytes>> {
    let mut frames = Vec::new(alloc);
    for (kind, parts) in &READS {
        let mut bytes = Vec::new(alloc);
        bytes.push(*kind).ok()?;
        bytes
            .extend_from_slice(b"\x01\0\0\0\x01\0\0\0\x03\0\0\0\x01")
            .ok()?;
        for part in *parts {
            bytes.extend_from_slice(part).ok()?;
        }
        frames.push(Bytes::from_vec(bytes)).ok()?;
    }
    Some(frames)
}

/// The reply to each: bucket 2, in which there is one write, and then an empty one.
fn reply() -> [u8; 334] {
    let mut bytes = [0; 334];
    (bytes[0], bytes[1], bytes[5], bytes[9], bytes[13]) = (3, 1, 1, 3, 1);
    (bytes[21], bytes[25], bytes[29]) = (1, 2, 5);
    bytes[30..54].fill(1);
    bytes
}

/// The set of the epoch with client 0's first write.
fn pinned<B: Naming, R: Wait + AllocGlobal>(
    rt: &R,
    desk: &Desk<B>,
    publisher: &mut Publisher<B>,
    pass: &mut Pass<B>,
) -> Option<Arc<EpochSet>> {
    let frame = write(desk.alloc, 0, 0)?;
    if desk.write(rt, pass, frame.as_slice())? != Ok(1) {
        return None;
    }
    let _told = desk.publish(rt, publisher)?;
    desk.pin(pass, 4)
}

/// Whether a server gives that reply to each of the frames alone.
fn answers_each(set: &EpochSet, server: u32, frames: &[Bytes]) -> bool {
    if server < 1 || server > set.servers() {
        return false;
    }
    for frame in frames {
        match set.answer(server, frame.as_slice()) {
            Ok(alone) if alone.as_slice() == reply().as_slice() => {}
            _ => return false,
        }
    }
    true
}

/// Whether it gives that reply to each of them together, by so many threads.
fn answers_all<R: Threads + Sync>(
    rt: &R,
    set: &EpochSet,
    server: u32,
    frames: &[Bytes],
    workers: u32,
) -> bool {
    if server < 1 || server > set.servers() || workers < 1 || workers > 64 {
        return false;
    }
    let Ok(replies) = set.answer_many(rt, server, frames, workers) else {
        return false;
    };
    for one in replies.iter() {
        if one.as_slice() != reply().as_slice() {
            return false;
        }
    }
    replies.len() == frames.len()
}

fn kinds_alike<B: Naming, R: Threads + Wait + AllocGlobal + Abort + Sync>(
    rt: &R,
    blank: Blank,
) -> Result<(), Fail>
    requires table { blank.table ≡ B.table }
    requires shape { blank.shape ≡ B.shape }
    requires seats { blank.seats ≡ B.shape.clients + 1 }
{
    let (desk, mut publisher, mut passes) = Desk::<B>::open(rt, blank).ok().ok_or("open")?;
    let set = match passes.first_mut() {
        Some(pass) => pinned(rt, &desk, &mut publisher, pass),
        None => None,
    };
    publisher.give_up(rt);
    let set = set.ok_or("set")?;
    let frames = reads(desk.alloc).ok_or("reads")?;
    let frames = frames.as_slice();
    for server in [1, 2] {
        let each = answers_each(&set, server, frames);
        let one = answers_all(rt, &set, server, frames, 1);
        let three = answers_all(rt, &set, server, frames, 3);
        assert!(rt; each & one & three, "{server}");
    }
    Ok(())
}

#[test]
fn reads_of_each_kind_are_answered_alike(rt: HostRuntime) -> Result<(), Fail> {
    let Some(blank) = blank_of(rt.alloc(), 2, 4) else {
        assert!(rt; false);
        return Ok(());
    };
    kinds_alike::<Brand, _>(&rt, blank)
}
