//! What a set answers once its epoch was released, and what is refused.
ghost use Rattle.std.specs.Prelude.{◌≡◌, ◌+◌};

use crate::testing::{Desk, blank, read, read_by, write};
use std::alloc::Global;
use std::marker::Brand;
use std::process::Abort;
use std::sync::{Arc, Wait};
use std::test::Fail;
use std::thread::Threads;
use tk_cluster::{AnswerError, EpochSet, Pass, Publisher, WriteError};
use tk_frames::{FrameError, decode_reply};
use tk_order::{Blank, Naming};
use tk_shape::Bytes;

/// A client pins epoch 1, which both servers made at once and in which there is a write, and three
/// more epochs are shown.
fn kept<B: Naming + Send + Sync, R: Threads + Wait + Sync + AllocGlobal>(
    rt: &R,
    desk: &Desk<B>,
    publisher: &mut Publisher<B>,
    pass: &mut Pass<B>,
) -> Option<Arc<EpochSet>> {
    let frame = write(desk.alloc, 0, 0)?;
    if desk.write(rt, pass, frame.as_slice())? != Ok(1) {
        return None;
    }
    let _first = desk.publish_at_once(rt, publisher)?;
    let set = desk.pin(pass, 4)?;
    for _ in 0..3 {
        let _later = desk.publish(rt, publisher)?;
    }
    Some(set)
}

/// The last byte of the block that a server replies from bucket 2, and whether the filter shows the
/// write.
fn answered<B: Naming>(desk: &Desk<B>, set: &EpochSet, server: u32) -> Option<(u8, bool)> {
    if server < 1 || server > set.servers() {
        return None;
    }
    let frame = read(desk.alloc, 1)?;
    let reply = set.answer(server, frame.as_slice()).ok()?;
    let reply = decode_reply(desk.alloc, &desk.shape, reply.as_slice()).ok()?;
    Some((*reply.first.as_slice().get(39)?, set.filter().shows(&[7])))
}

/// The first epoch that a server keeps.
fn floor<B: Naming, R: Wait>(rt: &R, desk: &Desk<B>, server: u32) -> Option<u32> {
    if server < 1 || server > desk.shape.servers {
        return None;
    }
    Some(desk.cluster.hold(rt, server).state().floor())
}

/// Why a set of epoch 1 doesn't answer a frame.
fn unanswered(set: &EpochSet, frame: &[u8]) -> Option<AnswerError> {
    if set.servers() < 1 {
        return None;
    }
    set.answer(1, frame).err()
}

/// Frames of reads by different vectors, the second over the epoch given.
fn three(alloc: Global, epoch: u32) -> Option<Vec<Bytes>> {
    let mut frames = Vec::new(alloc);
    frames.push(read_by(alloc, 1, [4, 32])?).ok()?;
    frames.push(read_by(alloc, epoch, [36, 1])?).ok()?;
    frames.push(read_by(alloc, 1, [255, 4])?).ok()?;
    Some(frames)
}

/// What a server answers to frames together.
fn together<R: Threads + Sync>(
    rt: &R,
    set: &EpochSet,
    server: u32,
    frames: &[Bytes],
    workers: u32,
) -> Option<Result<Vec<Bytes>, AnswerError>> {
    if server < 1 || server > set.servers() || workers < 1 || workers > 64 {
        return None;
    }
    Some(set.answer_many(rt, server, frames, workers))
}

/// Whether these are the answers to the frames one by one.
fn one_by_one(set: &EpochSet, server: u32, frames: &[Bytes], replies: &[Bytes]) -> bool {
    if server < 1 || server > set.servers() || frames.len() != replies.len() {
        return false;
    }
    for (frame, reply) in frames.iter().zip(replies.iter()) {
        match set.answer(server, frame.as_slice()) {
            Ok(alone) if alone.as_slice() == reply.as_slice() => {}
            _ => return false,
        }
    }
    true
}

/// Three frames and no frames, and three of which the second names another epoch.
fn many<R: Threads + Sync + Abort>(rt: &R, set: &EpochSet, alloc: Global) -> Result<(), Fail> {
    let frames = three(alloc, 1).ok_or("frames")?;
    for workers in [1, 3] {
        for server in [1, 2] {
            let replies = together(rt, set, server, frames.as_slice(), workers).ok_or("server")?;
            let replies = replies.ok().ok_or("replies")?;
            assert!(rt; one_by_one(set, server, frames.as_slice(), replies.as_slice()));
        }
        let none = together(rt, set, 1, &[], workers).ok_or("server")?;
        assert!(rt; none.ok().ok_or("none")?.is_empty());
    }
    let bad = three(alloc, 3).ok_or("frames")?;
    let refused = together(rt, set, 2, bad.as_slice(), 3).ok_or("server")?;
    assert!(rt; refused.err() == Some(AnswerError::Epoch { want: 1, got: 3 }));
    Ok(())
}

/// No frame at all, a read of the epoch before and of the next one, and a write of another client.
fn refused<B: Naming, R: Wait + AllocGlobal + Abort>(
    rt: &R,
    desk: &Desk<B>,
    set: &EpochSet,
    pass: &mut Pass<B>,
) -> Result<(), Fail> {
    let none = FrameError::Length { want: 16, got: 0 };
    assert!(rt; unanswered(set, &[]) == Some(AnswerError::Frame(none)));
    for got in [0, 2] {
        let other = read(desk.alloc, got).ok_or("read")?;
        let refusal = AnswerError::Epoch { want: 1, got };
        assert!(rt; unanswered(set, other.as_slice()) == Some(refusal));
    }
    let none = FrameError::Length { want: 46, got: 0 };
    assert!(rt; desk.write(rt, pass, &[]) == Some(Err(WriteError::Frame(none))));
    let frame = write(desk.alloc, 1, 1).ok_or("write")?;
    let another = WriteError::Client { want: 0, got: 1 };
    assert!(rt; desk.write(rt, pass, frame.as_slice()) == Some(Err(another)));
    assert!(rt; pass.ordered() == 1 && pass.known() == 1);
    Ok(())
}

fn epoch_1_answers<B: Naming + Send + Sync, R: Threads + Wait + AllocGlobal + Abort + Sync>(
    rt: &R,
    blank: Blank,
) -> Result<(), Fail>
    requires table { blank.table ≡ B.table }
    requires shape { blank.shape ≡ B.shape }
    requires seats { blank.seats ≡ B.shape.clients + 1 }
{
    let (desk, mut publisher, mut passes) = Desk::<B>::open(rt, blank).ok().ok_or("open")?;
    let set = match passes.first_mut() {
        Some(pass) => kept(rt, &desk, &mut publisher, pass),
        None => None,
    };
    let shown = publisher.shown();
    publisher.give_up(rt);
    let set = set.ok_or("set")?;
    assert!(rt; shown == 4 && set.number() == 1);
    assert!(rt; floor(rt, &desk, 1) == Some(3) && floor(rt, &desk, 2) == Some(3));
    assert!(rt; answered(&desk, &set, 1) == Some((1, true)));
    assert!(rt; answered(&desk, &set, 2) == Some((1, true)));
    many(rt, &set, desk.alloc)?;
    match passes.first_mut() {
        Some(pass) => refused(rt, &desk, &set, pass),
        None => Ok(()),
    }
}

#[test]
fn a_set_answers_after_its_epoch_was_released(rt: HostRuntime) -> Result<(), Fail> {
    let Some(blank) = blank(rt.alloc(), 4) else {
        assert!(rt; false);
        return Ok(());
    };
    epoch_1_answers::<Brand, _>(&rt, blank)
}
