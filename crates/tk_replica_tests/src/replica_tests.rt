ghost use Rattle.std.specs.Prelude.{◌≡◌, ◌+◌, ◌≤◌, Some, IfOk, IfSome, []};
ghost use Rattle.tk_frames.specs.Ranges.{IsWrite};
ghost use Rattle.tk_order.specs.Seats.{seated, opened};

use std::alloc::Global;
use std::marker::Brand;
use std::process::Abort;
use std::sync::Wait;
use std::test::Fail;
use tk_frames::{
    Entry, FrameError, ReadFrame, Seeds, Spare, WriteFrame, decode_reply, decode_write,
    encode_read, encode_write,
};
use tk_order::{Blank, Naming, Order, OrderSeat};
use tk_replica::{PinError, Replica, ReplicaState, ServeError};
use tk_shape::{Bytes, Shape, Words};

/// An order of two clients, of four phases of one tick, with eight buckets of four slots, and
/// blocks of 24 bytes. It has the seats of the marks and of client 0.
fn blank(alloc: Global, format: u32) -> Result<Blank, Fail>
    requires low { 1 ≤ format }
    requires high { format ≤ 2 }
    ensures { IfOk result (λ b. b.seats ≡ 2) }
{
    let numbers = [2, 8, 4, 4, 24, 64, 1, 0, 2, 4, 1, 1];
    let shape = Shape::of(format, numbers).ok().ok_or("shape")?;
    Ok(Blank::new(alloc, &shape, 2).ok().ok_or("blank")?)
}

/// The write of client 0 in a turn to buckets 2 and 5, whose block is all `turn + 1`, as its bytes
/// give it.
fn write(alloc: Global, shape: &Shape, turn: u32) -> Option<WriteFrame>
    ensures range { IfSome result (IsWrite shape.now) }
    ensures client { IfSome result (λ w. w.client ≡ 0) }
{
    let frame = WriteFrame {
        client: 0,
        turn,
        first: 2,
        second: 5,
        hits: Words::from_vec(vec![in alloc; 7; 1].ok()?),
        block: Bytes::from_vec(vec![in alloc; (turn & 127) as u8 + 1; 24].ok()?),
    };
    let mut bytes = Vec::new(alloc);
    encode_write(&frame, &mut bytes).ok()?;
    let write = decode_write(alloc, shape, bytes.as_slice()).ok()?;
    if write.client == 0 { Some(write) } else { None }
}

/// An order, and what its tests need of the shape and the memory.
#[derive(Drop)]
struct Desk<'a, B: Naming> {
    order: &'a Order<B>,
    shape: Shape,
    alloc: Global,
    pub ghost of: { shape ≡ B.shape },
}

impl<B: Naming> Desk<'_, B> {
    /// Orders the next write of client 0.
    fn write<R: Wait>(&self, rt: &R, seat: &mut OrderSeat<B>) -> Option<u64>
        requires { seat.old.number ≡ Some 1 }
        ensures { seat.new.number ≡ Some 1 }
    {
        let turn = seat.ordered();
        if turn >= self.shape.turns() {
            return None;
        }
        let write = write(self.alloc, &self.shape, turn)?;
        self.order.append(rt, seat, &Entry::Write(write)).ok()
    }

    /// Orders the next mark.
    fn mark<R: Wait>(&self, rt: &R, seat: &mut OrderSeat<B>) -> Option<u64>
        requires { seat.old.number ≡ Some 0 }
        ensures { seat.new.number ≡ Some 0 }
    {
        let done = seat.ordered();
        if done >= self.shape.phases {
            return None;
        }
        self.order.append(rt, seat, &Entry::Mark(done + 1)).ok()
    }

    /// The seat of the marks, after three writes with a mark after each.
    fn three_marks<R: Wait>(&self, rt: &R, mut seats: Vec<OrderSeat<B>>) -> Option<OrderSeat<B>>
        requires { seats.items ≡ opened 2 }
    {
        let mut client = last(&mut seats, 1)?;
        let mut marks = last(&mut seats, 0)?;
        for _ in 0..3 {
            self.write(rt, &mut client)?;
            self.mark(rt, &mut marks)?;
        }
        Some(marks)
    }

    fn open(&self, seat: &mut OrderSeat<B>) -> Option<Replica<B>> {
        Replica::open(self.alloc, &self.shape, self.order, seat).ok()
    }

    /// Three replicas.
    fn three(&self, seat: &mut OrderSeat<B>) -> Option<Vec<Replica<B>>> {
        let mut replicas = Vec::new(self.alloc);
        for _ in 0..3 {
            replicas.push(self.open(seat)?).ok()?;
        }
        Some(replicas)
    }

    /// The number and the position of the epoch that a replica answers.
    fn advance<R: Wait>(
        &self,
        rt: &R,
        replica: &Replica<B>,
        seat: &mut OrderSeat<B>,
        upto: u64,
    ) -> Option<(u32, u64)> {
        if upto > seat.seen() {
            return None;
        }
        let epoch = replica.advance(rt, self.order, seat, upto).ok()?;
        Some((epoch.number(), epoch.upto()))
    }
}

/// The last seat of a new order, whose number this is.
fn last<B: Naming>(seats: &mut Vec<OrderSeat<B>>, number: u32) -> Option<OrderSeat<B>>
    requires { seats.old.items ≡ opened (number + 1) }
    ensures { IfSome result
        (λ s. (s ≡ seated [] (Some number)) × (seats.new.items ≡ opened number)) }
{
    seats.pop()
}

/// How many entries the seat of a replica has seen when it is closed.
fn closed<B: Naming>(replica: Option<Replica<B>>) -> Option<u64> {
    Some(replica?.close().seen())
}

/// How many entries a replica has applied.
fn applied<B: Naming, R: Wait>(rt: &R, replica: &Replica<B>) -> u64 {
    replica.hold(rt).state().applied()
}

/// Three replicas, of which each applies as many entries as it is asked for.
fn advanced<B: Naming, R: Wait + Abort>(
    rt: &R,
    desk: &Desk<B>,
    seat: &mut OrderSeat<B>,
    replicas: &[Replica<B>],
) -> Result<(), Fail> {
    let [first, second, third] = replicas else {
        return Err("three".into());
    };
    assert!(rt; desk.advance(rt, first, seat, 6) == Some((3, 6)));
    assert!(rt; desk.advance(rt, second, seat, 3) == Some((1, 2)));
    assert!(rt; desk.advance(rt, third, seat, 1) == Some((0, 0)));
    assert!(rt; applied(rt, first) == 6);
    assert!(rt; applied(rt, second) == 3);
    assert!(rt; applied(rt, third) == 1);
    // an epoch that is kept, of fewer entries than were applied
    assert!(rt; desk.advance(rt, first, seat, 5) == Some((2, 4)));
    Ok(())
}

fn three_lengths<B: Naming, R: Wait + Abort>(
    rt: &R,
    alloc: Global,
    blank: Blank,
) -> Result<(), Fail>
    requires table { blank.table ≡ B.table }
    requires shape { blank.shape ≡ B.shape }
    requires seats { blank.seats ≡ 2 }
{
    let shape = blank.shape();
    let (order, seats) = Order::<B>::open(rt, alloc, blank).ok().ok_or("open")?;
    let order = &order;
    let desk = Desk {
        order,
        shape,
        alloc,
    };
    let mut seat = desk.three_marks(rt, seats).ok_or("marks")?;
    let mut replicas = desk.three(&mut seat).ok_or("replicas")?;
    advanced(rt, &desk, &mut seat, replicas.as_slice())?;
    let _third = replicas.pop();
    assert!(rt; closed(replicas.pop()) == Some(6));
    Ok(())
}

#[test]
fn replicas_advance_to_lengths_of_their_own(rt: HostRuntime) -> Result<(), Fail> {
    let alloc = rt.alloc();
    three_lengths::<Brand, _>(&rt, alloc, blank(alloc, 1)?)
}

/// The epochs below 2 of a replica are let go, and what is asked then.
fn let_go<B: Naming, R: Wait + Abort>(
    rt: &R,
    desk: &Desk<B>,
    seat: &mut OrderSeat<B>,
    replica: &Replica<B>,
) -> Result<(), Fail> {
    assert!(rt; desk.advance(rt, replica, seat, 6) == Some((3, 6)));
    replica.release(rt, 2);
    let mut held = replica.hold(rt);
    held.agree(desk.order, seat);
    pins_and_serves(rt, desk.alloc, held.state())?;
    serves_together(rt, desk.alloc, held.state())?;
    serves_again(rt, desk.alloc, held.state())?;
    drop(held);
    assert!(rt; desk.advance(rt, replica, seat, 2) == Some((1, 2)));
    Ok(())
}

/// A replica after three marks.
fn released<B: Naming, R: Wait + Abort>(rt: &R, alloc: Global, blank: Blank) -> Result<(), Fail>
    requires table { blank.table ≡ B.table }
    requires shape { blank.shape ≡ B.shape }
    requires seats { blank.seats ≡ 2 }
{
    let shape = blank.shape();
    let (order, seats) = Order::<B>::open(rt, alloc, blank).ok().ok_or("open")?;
    let order = &order;
    let desk = Desk {
        order,
        shape,
        alloc,
    };
    let mut seat = desk.three_marks(rt, seats).ok_or("marks")?;
    let replica = desk.open(&mut seat).ok_or("replica")?;
    let_go(rt, &desk, &mut seat, &replica)
}

#[test]
fn a_held_state_pins_and_serves(rt: HostRuntime) -> Result<(), Fail> {
    let alloc = rt.alloc();
    released::<Brand, _>(&rt, alloc, blank(alloc, 1)?)
}

/// Epochs, and why each isn't kept, if it isn't.
const EPOCHS: [(u32, Option<PinError>, Option<ServeError>); 4] = [
    (
        4,
        Some(PinError::Ahead { last: 3 }),
        Some(ServeError::Ahead { last: 3 }),
    ),
    (3, None, None),
    (2, None, None),
    (
        1,
        Some(PinError::Retired { floor: 2 }),
        Some(ServeError::Retired { floor: 2 }),
    ),
];

/// The frame of a read for bucket 2 twice, over an epoch.
fn read(alloc: Global, epoch: u32) -> Option<Bytes> {
    let frame = ReadFrame {
        client: 1,
        turn: 3,
        epoch,
        first: Bytes::from_slice(alloc, &[4]).ok()?,
        second: Bytes::from_slice(alloc, &[4]).ok()?,
        seeds: Seeds::Plain,
    };
    let mut bytes = Vec::new(alloc);
    encode_read(&frame, &mut bytes).ok()?;
    Some(Bytes::from_vec(bytes))
}

/// The frames of such reads.
fn reads(alloc: Global, epochs: &[u32]) -> Option<Vec<Bytes>> {
    let mut frames = Vec::new(alloc);
    for epoch in epochs {
        frames.push(read(alloc, *epoch)?).ok()?;
    }
    Some(frames)
}

/// Bucket 2 in epoch 2, which has the first two of the three writes.
fn bucket() -> [u8; 160] {
    let mut bytes = [0; 160];
    (bytes[7], bytes[11], bytes[15]) = (1, 2, 5);
    (bytes[47], bytes[51], bytes[55]) = (3, 2, 5);
    bytes[16..40].fill(1);
    bytes[56..80].fill(2);
    bytes
}

/// Whether a reply is that to the read of bucket 2 over epoch 2.
fn is_reply(alloc: Global, shape: &Shape, bytes: &[u8]) -> bool {
    let Ok(reply) = decode_reply(alloc, shape, bytes) else {
        return false;
    };
    let (first, second) = (reply.first.as_slice(), reply.second.as_slice());
    (reply.client, reply.turn, reply.epoch) == (1, 3, 2)
        && first == second
        && first == bucket().as_slice()
}

fn pins_and_serves<R: Abort>(rt: &R, alloc: Global, state: &ReplicaState) -> Result<(), Fail> {
    for (epoch, unpinned, unserved) in EPOCHS {
        assert!(rt; state.pin(epoch).err() == unpinned);
        let frame = read(alloc, epoch).ok_or("read")?;
        assert!(rt; state.serve(alloc, frame.as_slice()).err() == unserved);
    }
    let epoch = state.pin(2).ok().ok_or("pinned")?;
    assert!(rt; (epoch.number(), epoch.upto()) == (2, 4));
    assert!(rt; epoch.filter().shows(&[7]) && !epoch.filter().shows(&[8]));
    let none = state.serve(alloc, &[]).err();
    let fault = FrameError::Length { want: 16, got: 0 };
    assert!(rt; none == Some(ServeError::Frame(fault)));
    Ok(())
}

/// Whether these are the replies to the frames one by one.
fn one_by_one(alloc: Global, state: &ReplicaState, frames: &[Bytes], replies: &[Bytes]) -> bool {
    for (frame, reply) in frames.iter().zip(replies.iter()) {
        match state.serve(alloc, frame.as_slice()) {
            Ok(alone) if alone.as_slice() == reply.as_slice() => {}
            _ => return false,
        }
    }
    frames.len() == replies.len()
}

fn serves_together<R: Abort>(rt: &R, alloc: Global, state: &ReplicaState) -> Result<(), Fail> {
    let frames = reads(alloc, &[2, 3, 3]).ok_or("reads")?;
    let served = state.serve_all(alloc, frames.as_slice());
    let replies = served.ok().ok_or("served")?;
    assert!(rt; replies.len() == 3);
    assert!(rt; is_reply(alloc, state.shape(), replies[0].as_slice()));
    assert!(rt; one_by_one(alloc, state, frames.as_slice(), replies.as_slice()));
    // the first bad frame decides
    let frames = reads(alloc, &[2, 1, 4]).ok_or("reads")?;
    let bad = state.serve_all(alloc, frames.as_slice()).err();
    assert!(rt; bad == Some(ServeError::Retired { floor: 2 }));
    Ok(())
}

/// The same, so often in the buffers of the time before.
fn serves_again<R: Abort>(rt: &R, alloc: Global, state: &ReplicaState) -> Result<(), Fail> {
    let frames = reads(alloc, &[2, 3, 3]).ok_or("reads")?;
    let mut spare = Spare::new(alloc);
    for _ in 0..3 {
        let served = state.serve_all_with(alloc, &mut spare, frames.as_slice());
        let again = served.ok().ok_or("again")?;
        assert!(rt; again.len() == 3);
        assert!(rt; one_by_one(alloc, state, frames.as_slice(), again.as_slice()));
    }
    assert!(rt; (spare.vectors.len(), spare.sums.len()) == (6, 4));
    Ok(())
}

/// The kind of a read, and what comes after its asker: a vector with bucket 2 and then one with an
/// empty bucket alone, as they are, by the seeds that expand to them, and after other seeds.
const ALIKE: [(u8, &[&[u8]]); 3] = [
    (2, &[b"\x76\x08"]),
    (6, &[&[0; 32], &[0x2b; 32]]),
    (7, &[&[0x51; 64], b"\x76\x08"]),
];

/// The frames of those reads, of client 1 in turn 3 over epoch 2.
fn alike(alloc: Global) -> Option<Vec<Bytes>> {
    let mut frames = Vec::new(alloc);
    for (kind, parts) in &ALIKE {
        let mut bytes = Vec::new(alloc);
        bytes.push(*kind).ok()?;
        bytes
            .extend_from_slice(b"\x01\0\0\0\x01\0\0\0\x03\0\0\0\x02")
            .ok()?;
        for part in *parts {
            bytes.extend_from_slice(part).ok()?;
        }
        frames.push(Bytes::from_vec(bytes)).ok()?;
    }
    Some(frames)
}

/// Whether a reply has bucket 2 of epoch 2, and then an empty one.
fn has_bucket(alloc: Global, shape: &Shape, bytes: &[u8]) -> bool {
    let Ok(reply) = decode_reply(alloc, shape, bytes) else {
        return false;
    };
    (reply.client, reply.turn, reply.epoch) == (1, 3, 2)
        && reply.first.as_slice() == bucket().as_slice()
        && reply.second.as_slice() == [0; 160].as_slice()
}

/// Reads of each kind with the same vectors.
fn kinds_alike<B: Naming, R: Abort>(
    rt: &R,
    desk: &Desk<B>,
    state: &ReplicaState,
) -> Result<(), Fail> {
    let alloc = desk.alloc;
    let frames = alike(alloc).ok_or("reads")?;
    let together = state.serve_all(alloc, frames.as_slice());
    let together = together.ok().ok_or("together")?;
    assert!(rt; together.len() == 3);
    for (frame, reply) in frames.iter().zip(together.iter()) {
        let alone = state.serve(alloc, frame.as_slice()).ok().ok_or("alone")?;
        assert!(rt; has_bucket(alloc, &desk.shape, alone.as_slice()));
        assert!(rt; has_bucket(alloc, &desk.shape, reply.as_slice()));
    }
    Ok(())
}

/// A replica of format 2 after three marks.
fn served_alike<B: Naming, R: Wait + Abort>(rt: &R, alloc: Global, blank: Blank) -> Result<(), Fail>
    requires table { blank.table ≡ B.table }
    requires shape { blank.shape ≡ B.shape }
    requires seats { blank.seats ≡ 2 }
{
    let shape = blank.shape();
    let (order, seats) = Order::<B>::open(rt, alloc, blank).ok().ok_or("open")?;
    let order = &order;
    let desk = Desk {
        order,
        shape,
        alloc,
    };
    let mut seat = desk.three_marks(rt, seats).ok_or("marks")?;
    let replica = desk.open(&mut seat).ok_or("replica")?;
    assert!(rt; desk.advance(rt, &replica, &mut seat, 6) == Some((3, 6)));
    let mut held = replica.hold(rt);
    held.agree(order, &mut seat);
    kinds_alike(rt, &desk, held.state())
}

#[test]
fn reads_of_each_kind_are_served_alike(rt: HostRuntime) -> Result<(), Fail> {
    let alloc = rt.alloc();
    served_alike::<Brand, _>(&rt, alloc, blank(alloc, 2)?)
}
