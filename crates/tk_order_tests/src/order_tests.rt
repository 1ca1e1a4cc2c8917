ghost use Rattle.std.specs.Prelude.{◌≡◌, ◌+◌, ◌<◌, Some, IfOk, IfSome, []};
ghost use Rattle.tk_frames.specs.Ranges.{IsPlaced};
ghost use Rattle.tk_order.specs.Seats.{seated, opened};

use std::alloc::Global;
use std::marker::Brand;
use std::process::Abort;
use std::sync::{Arc, Wait};
use std::test::Fail;
use std::thread::{Threads, join};
use tk_frames::{Entry, Placed, WriteFrame, decode_placed, encode_placed};
use tk_order::{Blank, Naming, Order, OrderSeat};
use tk_shape::{Bytes, Shape, Words};

/// Two clients, four phases of one tick, eight buckets of four slots, and blocks of 24 bytes.
fn blank(alloc: Global, seats: u32) -> Result<Blank, Fail>
    requires { 0 < seats }
    ensures { IfOk result (λ b. b.seats ≡ seats) }
{
    let numbers = [2, 8, 4, 4, 24, 64, 1, 0, 2, 4, 1, 1];
    let shape = Shape::new(numbers).ok().ok_or("shape")?;
    Ok(Blank::new(alloc, &shape, seats).ok().ok_or("blank")?)
}

/// A write of a client in a turn.
fn write(alloc: Global, client: u32, turn: u32) -> Option<Entry> {
    Some(Entry::Write(WriteFrame {
        client,
        turn,
        first: 2,
        second: 5,
        hits: Words::from_vec(vec![in alloc; 7; 1].ok()?),
        block: Bytes::from_vec(vec![in alloc; 9; 24].ok()?),
    }))
}

/// An entry as its bytes give it.
fn checked(alloc: Global, shape: &Shape, entry: Entry) -> Option<Placed>
    ensures { IfSome result (IsPlaced shape.now) }
{
    let mut bytes = Vec::new(alloc);
    let placed = Placed { position: 1, entry };
    encode_placed(&placed, &mut bytes).ok()?;
    decode_placed(alloc, shape, bytes.as_slice()).ok()
}

/// An order and what its tests need of the shape and the memory.
#[derive(Drop)]
struct Desk<'a, B: Naming> {
    order: &'a Order<B>,
    shape: Shape,
    alloc: Global,
    pub ghost of: { shape ≡ B.shape },
}

impl<B: Naming> Desk<'_, B> {
    /// Orders an entry by the seat of this number, if it may.
    fn put<R: Wait>(
        &self,
        rt: &R,
        seat: &mut OrderSeat<B>,
        number: u32,
        entry: Entry,
    ) -> Option<u64>
        requires { seat.old.number ≡ Some number }
        ensures { seat.new.number ≡ Some number }
    {
        let entry = checked(self.alloc, &self.shape, entry)?.entry;
        match &entry {
            Entry::Write(write) => {
                if write.client + 1 != number || seat.ordered() >= self.shape.turns() {
                    return None;
                }
            }
            Entry::Mark(epoch) => {
                if number != 0 || *epoch - 1 != seat.ordered() {
                    return None;
                }
            }
        }
        self.order.append(rt, seat, &entry).ok()
    }

    /// Orders a write of the client for each of four turns.
    fn all_turns<R: Wait>(
        &self,
        rt: &R,
        mut seat: OrderSeat<B>,
        client: u32,
    ) -> Option<OrderSeat<B>>
        requires { (seat.number ≡ Some (client + 1)) × (client < 2) }
    {
        for turn in 0..4 {
            let entry = write(self.alloc, client, turn)?;
            self.put(rt, &mut seat, client + 1, entry)?;
        }
        Some(seat)
    }
}

/// The last seat of a new order, whose number this is.
#[tactic(auto, using(tk_order::proofs::Offers::last_opened))]
fn last<B: Naming>(seats: &mut Vec<OrderSeat<B>>, number: u32) -> Option<OrderSeat<B>>
    requires { seats.old.items ≡ opened (number + 1) }
    ensures { IfSome result
        (λ s. (s ≡ seated [] (Some number)) × (seats.new.items ≡ opened number)) }
{
    seats.pop()
}

/// Whether these are a write and then mark 1, from position 1.
fn are_both(entries: &[Arc<Placed>]) -> bool {
    match entries {
        [write, mark] => {
            let places = write.position == 1 && mark.position == 2;
            places && matches!(write.entry, Entry::Write(_)) && matches!(mark.entry, Entry::Mark(1))
        }
        _ => false,
    }
}

fn two_seats<B: Naming, R: Wait + Abort>(rt: &R, alloc: Global, blank: Blank) -> Result<(), Fail>
    requires table { blank.table ≡ B.table }
    requires shape { blank.shape ≡ B.shape }
    requires seats { blank.seats ≡ 2 }
{
    let shape = blank.shape();
    let (order, mut seats) = Order::<B>::open(rt, alloc, blank).ok().ok_or("open")?;
    let mut second = last(&mut seats, 1).ok_or("second")?;
    let mut first = last(&mut seats, 0).ok_or("first")?;
    let order = &order;
    let desk = Desk {
        order,
        shape,
        alloc,
    };
    let entry = write(alloc, 0, 0).ok_or("write")?;
    assert!(rt; desk.put(rt, &mut second, 1, entry) == Some(1));
    assert!(rt; order.look(&mut first) == 1);
    assert!(rt; desk.put(rt, &mut first, 0, Entry::Mark(1)) == Some(2));
    assert!(rt; order.look(&mut second) == 2);
    assert!(rt; (first.ordered(), second.ordered()) == (1, 1));

    let found = order.fetch(rt, &mut second, 1, 2).ok().ok_or("fetch")?;
    assert!(rt; are_both(found.as_slice()));
    let none = order.fetch(rt, &mut second, 3, 2).ok().ok_or("fetch")?;
    assert!(rt; none.is_empty());
    Ok(())
}

#[test]
fn seats_order_in_turn(rt: HostRuntime) -> Result<(), Fail> {
    let alloc = rt.alloc();
    two_seats::<Brand, _>(&rt, alloc, blank(alloc, 2)?)
}

fn split_and_joined<B: Naming, R: Wait + Abort>(
    rt: &R,
    alloc: Global,
    blank: Blank,
) -> Result<(), Fail>
    requires table { blank.table ≡ B.table }
    requires shape { blank.shape ≡ B.shape }
    requires seats { blank.seats ≡ 2 }
{
    let shape = blank.shape();
    let (order, mut seats) = Order::<B>::open(rt, alloc, blank).ok().ok_or("open")?;
    let mut second = last(&mut seats, 1).ok_or("second")?;
    let mut first = last(&mut seats, 0).ok_or("first")?;
    let desk = Desk {
        order: &order,
        shape,
        alloc,
    };
    let entry = write(alloc, 0, 0).ok_or("write")?;
    desk.put(rt, &mut second, 1, entry).ok_or("put")?;
    desk.put(rt, &mut first, 0, Entry::Mark(1)).ok_or("put")?;

    let other = order.split(&mut first);
    assert!(rt; other.seen() == 2 && other.ordered() == 0);
    order.agree(&mut first, &mut second);
    assert!(rt; second.seen() == 1);
    order.join(&mut second, other);
    assert!(rt; second.seen() == 2);
    second.legal();
    seats.push(first)?;
    seats.push(second)?;
    let journal = order.close(rt, seats);
    assert!(rt; are_both(journal.as_slice()));
    Ok(())
}

#[test]
fn split_seats_join_and_the_order_closes(rt: HostRuntime) -> Result<(), Fail> {
    let alloc = rt.alloc();
    split_and_joined::<Brand, _>(&rt, alloc, blank(alloc, 2)?)
}

/// Whether the entries are four writes of each client, in the order of its turns.
fn are_all_turns(entries: &[Arc<Placed>]) -> bool {
    for client in 0..2 {
        let mut turn = 0;
        for placed in entries {
            if let Entry::Write(write) = &placed.entry {
                if write.client == client {
                    if write.turn != turn || turn > 3 {
                        return false;
                    }
                    turn += 1;
                }
            }
        }
        if turn != 4 {
            return false;
        }
    }
    entries.len() == 8
}

fn two_threads<B: Naming + Send + Sync, R: Threads + Wait + Sync + Abort>(
    rt: &R,
    alloc: Global,
    blank: Blank,
) -> Result<(), Fail>
    requires table { blank.table ≡ B.table }
    requires shape { blank.shape ≡ B.shape }
    requires seats { blank.seats ≡ 3 }
{
    let shape = blank.shape();
    let (order, mut seats) = Order::<B>::open(rt, alloc, blank).ok().ok_or("open")?;
    let two = last(&mut seats, 2).ok_or("two")?;
    let one = last(&mut seats, 1).ok_or("one")?;
    let desk = &Desk {
        order: &order,
        shape,
        alloc,
    };
    let (one, two) = join(
        rt,
        move || -> Option<OrderSeat<B>>
            requires { one.number ≡ Some 1 }
        { desk.all_turns(rt, one, 0) },
        move || -> Option<OrderSeat<B>>
            requires { two.number ≡ Some 2 }
        { desk.all_turns(rt, two, 1) },
    );
    seats.push(one.ok_or("one")?)?;
    seats.push(two.ok_or("two")?)?;
    assert!(rt; are_all_turns(order.close(rt, seats).as_slice()));
    Ok(())
}

#[test]
fn threads_share_an_order(rt: HostRuntime) -> Result<(), Fail> {
    let alloc = rt.alloc();
    two_threads::<Brand, _>(&rt, alloc, blank(alloc, 3)?)
}
