//! What the held states of servers serve once early epochs were let go.
ghost use Rattle.std.specs.Prelude.{◌≡◌, ◌+◌};

use crate::testing::{Desk, blank, read};
use std::marker::Brand;
use std::process::Abort;
use std::sync::{Arc, Wait};
use std::test::Fail;
use tk_cluster::{EpochSet, Pass, Publisher};
use tk_frames::{FrameError, Name, decode_reply};
use tk_order::{Blank, Naming};
use tk_replica::ServeError;
use tk_shape::Bytes;

/// A client pins epoch 1, and four more epochs are shown.
fn five<B: Naming, R: Wait + AllocGlobal>(
    rt: &R,
    desk: &Desk<B>,
    publisher: &mut Publisher<B>,
    pass: &mut Pass<B>,
) -> Option<Arc<EpochSet>> {
    let _first = desk.publish(rt, publisher)?;
    let set = desk.pin(pass, 8)?;
    for _ in 0..4 {
        let _later = desk.publish(rt, publisher)?;
    }
    Some(set)
}

/// How a server's held state serves a read of an epoch.
fn served<B: Naming, R: Wait>(
    rt: &R,
    desk: &Desk<B>,
    server: u32,
    epoch: u32,
) -> Option<Result<Bytes, ServeError>> {
    if server < 1 || server > desk.shape.servers {
        return None;
    }
    let frame = read(desk.alloc, epoch)?;
    let held = desk.cluster.hold(rt, server);
    Some(held.state().serve(desk.alloc, frame.as_slice()))
}

/// Why it doesn't serve one.
fn unserved<B: Naming, R: Wait>(
    rt: &R,
    desk: &Desk<B>,
    server: u32,
    epoch: u32,
) -> Option<ServeError> {
    served(rt, desk, server, epoch)?.err()
}

/// Epochs 4 and 5 are kept, of at most 8.
fn serves_two<B: Naming, R: Wait + Abort>(rt: &R, desk: &Desk<B>, server: u32) -> Result<(), Fail> {
    assert!(rt; unserved(rt, desk, server, 3) == Some(ServeError::Retired { floor: 4 }));
    for epoch in [4, 5] {
        let reply = served(rt, desk, server, epoch).ok_or("server")?;
        let reply = reply.ok().ok_or("reply")?;
        let reply = decode_reply(desk.alloc, &desk.shape, reply.as_slice())
            .ok()
            .ok_or("frame")?;
        assert!(rt; reply.epoch == epoch);
    }
    assert!(rt; unserved(rt, desk, server, 6) == Some(ServeError::Ahead { last: 5 }));
    let none = FrameError::Field {
        name: Name::Epoch,
        got: 9,
    };
    assert!(rt; unserved(rt, desk, server, 9) == Some(ServeError::Frame(none)));
    Ok(())
}

/// Whether a server's pinned epoch 1 answers.
fn pinned<B: Naming>(desk: &Desk<B>, set: &EpochSet, server: u32) -> bool {
    if server < 1 || server > set.servers() {
        return false;
    }
    match read(desk.alloc, 1) {
        Some(frame) => set.answer(server, frame.as_slice()).is_ok(),
        None => false,
    }
}

/// The states of both servers, held at once: a replica that was lent twice would wait for itself. Each applied all five
/// marks, and agrees with what a pass has seen.
fn both_held<B: Naming, R: Wait + Abort>(
    rt: &R,
    desk: &Desk<B>,
    pass: &mut Pass<B>,
) -> Result<(), Fail> {
    if desk.shape.servers < 2 {
        return Err("servers".into());
    }
    let mut first = desk.cluster.hold(rt, 1);
    let mut second = desk.cluster.hold(rt, 2);
    desk.cluster.agree(&mut first, pass);
    desk.cluster.agree(&mut second, pass);
    assert!(rt; first.state().applied() == 5 && second.state().applied() == 5);
    Ok(())
}

fn two_are_kept<B: Naming, R: Wait + AllocGlobal + Abort>(rt: &R, blank: Blank) -> Result<(), Fail>
    requires table { blank.table ≡ B.table }
    requires shape { blank.shape ≡ B.shape }
    requires seats { blank.seats ≡ B.shape.clients + 1 }
{
    let (desk, mut publisher, mut passes) = Desk::<B>::open(rt, blank).ok().ok_or("open")?;
    let set = match passes.first_mut() {
        Some(pass) => five(rt, &desk, &mut publisher, pass),
        None => None,
    };
    let shown = publisher.shown();
    publisher.give_up(rt);
    let set = set.ok_or("set")?;
    assert!(rt; shown == 5 && set.number() == 1);
    for server in [1, 2] {
        serves_two(rt, &desk, server)?;
        assert!(rt; pinned(&desk, &set, server));
    }
    both_held(rt, &desk, passes.first_mut().ok_or("pass")?)
}

#[test]
fn held_states_serve_what_they_keep(rt: HostRuntime) -> Result<(), Fail> {
    let Some(blank) = blank(rt.alloc(), 8) else {
        assert!(rt; false);
        return Ok(());
    };
    two_are_kept::<Brand, _>(&rt, blank)
}
