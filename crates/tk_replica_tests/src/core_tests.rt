ghost use Rattle.std.specs.Prelude.{IfOk};
ghost use Rattle.tk_frames.specs.Ranges.{IsWrite};

use std::alloc::Global;
use std::test::Fail;
use tk_core::{Event, Reply, World};
use tk_frames::{WriteFrame, decode_write, encode_write};
use tk_shape::{Bytes, Shape, Words};

/// Two servers and two clients, two phases of one tick, eight buckets of four slots, and blocks of
/// 24 bytes.
fn open(alloc: Global) -> Result<World, Fail> {
    let numbers = [2, 8, 4, 4, 24, 64, 1, 0, 2, 2, 1, 1];
    let shape = Shape::new(numbers).ok().ok_or("shape")?;
    Ok(World::open(alloc, &shape).ok().ok_or("memory")?)
}

/// A write to buckets 2 and 5, as its bytes give it.
fn write(alloc: Global, shape: &Shape) -> Result<WriteFrame, Fail>
    ensures { IfOk result (IsWrite shape.now) }
{
    let frame = WriteFrame {
        client: 0,
        turn: 0,
        first: 2,
        second: 5,
        hits: Words::from_vec(vec![in alloc; 7; 1]?),
        block: Bytes::from_vec(vec![in alloc; 11; 24]?),
    };
    let mut bytes = Vec::new(alloc);
    encode_write(&frame, &mut bytes).ok().ok_or("memory")?;
    Ok(
        decode_write(alloc, shape, bytes.as_slice())
            .ok()
            .ok_or("write")?,
    )
}

fn put(alloc: Global, world: &mut World) -> Result<Reply, Fail> {
    let shape = world.shape();
    let frame = write(alloc, &shape)?;
    if !world.takes_writes() {
        return Err("writes".into());
    }
    Ok(world.step(alloc, Event::Put(frame)).ok().ok_or("memory")?)
}

fn mark(alloc: Global, world: &mut World) -> Result<Reply, Fail> {
    if !world.takes_marks() {
        return Err("marks".into());
    }
    Ok(world.step(alloc, Event::Mark).ok().ok_or("memory")?)
}

fn apply(alloc: Global, world: &mut World, server: u32) -> Result<Reply, Fail> {
    let shape = world.shape();
    if server < 1 || server > shape.servers {
        return Err("server".into());
    }
    Ok(
        world
            .step(alloc, Event::Apply(server))
            .ok()
            .ok_or("memory")?,
    )
}

fn show(alloc: Global, world: &mut World) -> Result<Reply, Fail> {
    Ok(world.step(alloc, Event::Show).ok().ok_or("memory")?)
}

/// What happens to the machine; an entry is applied by a server.
#[derive(Clone, Copy)]
enum Act {
    Put,
    Mark,
    Apply(u32),
    Show,
}

fn done(alloc: Global, world: &mut World, act: Act) -> Result<Reply, Fail> {
    match act {
        Act::Put => put(alloc, world),
        Act::Mark => mark(alloc, world),
        Act::Apply(server) => apply(alloc, world, server),
        Act::Show => show(alloc, world),
    }
}

/// What the machine says to that: the position of a write, that and the epoch of a mark, how many
/// entries a server has applied, or the epoch that is shown.
#[derive(Clone, Copy)]
enum Says {
    Placed(u64),
    Marked(u64, u32),
    Applied(u64),
    UpToDate,
    NoMark,
    NotYet(u32, u64),
    Shown(u32),
}

fn is_said(reply: &Reply, says: Says) -> bool {
    match says {
        Says::Placed(at) => matches!(reply, Reply::Placed(position) if *position == at),
        Says::Marked(at, number) => matches!(
            reply,
            Reply::Marked { position, epoch } if *position == at && *epoch == number
        ),
        Says::Applied(count) => matches!(reply, Reply::Applied(applied) if *applied == count),
        Says::UpToDate => matches!(reply, Reply::UpToDate),
        Says::NoMark => matches!(reply, Reply::NoMark),
        Says::NotYet(by, count) => matches!(
            reply,
            Reply::NotYet { server, applied } if *server == by && *applied == count
        ),
        Says::Shown(number) => matches!(reply, Reply::Shown(epoch) if *epoch == number),
    }
}

/// A write and a mark, which both servers apply before their epoch is shown.
const EVENTS: [(Act, Says); 11] = [
    (Act::Show, Says::NoMark),
    (Act::Put, Says::Placed(1)),
    (Act::Mark, Says::Marked(2, 1)),
    (Act::Show, Says::NotYet(1, 0)),
    (Act::Apply(1), Says::Applied(1)),
    (Act::Apply(1), Says::Applied(2)),
    (Act::Show, Says::NotYet(2, 0)),
    (Act::Apply(2), Says::Applied(1)),
    (Act::Apply(2), Says::Applied(2)),
    (Act::Show, Says::Shown(1)),
    (Act::Apply(1), Says::UpToDate),
];

#[test]
fn event_by_event(rt: HostRuntime) -> Result<(), Fail> {
    let mut world = open(rt.alloc())?;
    for (act, says) in EVENTS {
        assert!(rt; is_said(&done(rt.alloc(), &mut world, act)?, says));
    }
    Ok(())
}

/// A write and a mark that both servers have applied.
const BEFORE: [Act; 6] = [
    Act::Put,
    Act::Mark,
    Act::Apply(1),
    Act::Apply(1),
    Act::Apply(2),
    Act::Apply(2),
];

/// Whether a read of buckets 2 and 5 at server 2 is over this epoch, and gets these bytes and zeros.
fn reads(alloc: Global, world: &mut World, number: u32, bytes: &[u8]) -> Result<bool, Fail> {
    let shape = world.shape();
    if shape.servers < 2 || shape.buckets < 6 {
        return Err("read".into());
    }
    let event = Event::Read {
        server: 2,
        first: 2,
        second: 5,
    };
    match world.step(alloc, event) {
        Ok(
            Reply::Blocks {
                epoch,
                first,
                second,
            },
        ) => Ok(
            epoch == number
                && first.as_slice() == bytes
                && second.as_slice() == [0; 160].as_slice(),
        ),
        _ => Err("blocks".into()),
    }
}

/// Bucket 2 once the write has come.
fn written() -> [u8; 160] {
    let mut bytes = [0; 160];
    (bytes[7], bytes[11], bytes[15]) = (1, 2, 5);
    bytes[16..40].fill(11);
    bytes
}

#[test]
fn a_read_is_over_the_shown_epoch(rt: HostRuntime) -> Result<(), Fail> {
    let mut world = open(rt.alloc())?;
    for act in BEFORE {
        done(rt.alloc(), &mut world, act)?;
    }
    assert!(rt; reads(rt.alloc(), &mut world, 0, &[0; 160])?);
    done(rt.alloc(), &mut world, Act::Show)?;
    assert!(rt; reads(rt.alloc(), &mut world, 1, &written())?);
    Ok(())
}
