//! A state that is made of its parts after a mark, and goes on as one that never stopped.
ghost use Rattle.std.specs.Prelude.{◌≡◌, ◌+◌, ◌≤◌, true, All, IfOk};
ghost use Rattle.tk_frames.specs.InOrder.{IsNextAt};
ghost use Rattle.tk_frames.specs.Ranges.{IsPlaced};

use std::alloc::Global;
use std::test::Fail;
use tk_answer::Blocks;
use tk_bloom::Window;
use tk_frames::{Entry, Placed, WriteFrame, decode_placed, encode_placed};
use tk_replica::{Epoch, PinError, ReplicaState};
use tk_shape::{Bytes, Shape, Words};
use tk_table::Table;

/// Eight buckets of one slot, of which two writes are kept; blocks of 24 bytes, two clients, and
/// four phases of one tick.
fn shape() -> Result<Shape, Fail>
    ensures buckets { IfOk result (λ s. s.buckets ≡ 8) }
    ensures depth { IfOk result (λ s. s.depth ≡ 1) }
    ensures retained { IfOk result (λ s. s.retained ≡ 2) }
    ensures block { IfOk result (λ s. s.block ≡ 24) }
    ensures filter { IfOk result (λ s. s.filter_bits ≡ 64) }
    ensures hits { IfOk result (λ s. s.hits ≡ 1) }
{
    let numbers = [2, 8, 1, 2, 24, 64, 1, 0, 2, 4, 1, 1];
    Ok(Shape::new(numbers).ok().ok_or("shape")?)
}

/// A write of a client in a turn, to bucket 2 twice. Its block has one byte that isn't zero.
fn write(alloc: Global, client: u32, turn: u32) -> Result<Entry, Fail> {
    let hit = 2 * (turn & 7) + (client & 1);
    let mut block = vec![in alloc; 0; 24]?;
    block[23] = hit as u8 + 1;
    Ok(Entry::Write(WriteFrame {
        client,
        turn,
        first: 2,
        second: 2,
        hits: Words::from_vec(vec![in alloc; hit; 1]?),
        block: Bytes::from_vec(block),
    }))
}

/// Whether an entry is the next one for a state.
fn is_next(state: &ReplicaState, placed: &Placed) -> bool
    requires { IsPlaced state.now.shape placed.now }
    ensures { result ≡ true → IsNextAt state.now.shape (state.now.applied + 1)
        (state.now.last + 1) placed.now }
{
    if placed.position - 1 != state.applied() {
        return false;
    }
    match &placed.entry {
        Entry::Write(_) => true,
        Entry::Mark(number) => *number - 1 == state.last(),
    }
}

/// Applies the next entry, as its bytes give it.
fn apply(alloc: Global, state: &mut ReplicaState, entry: Entry) -> Result<(), Fail> {
    let placed = Placed {
        position: state.applied().saturating_add(1),
        entry,
    };
    let mut bytes = Vec::new(alloc);
    encode_placed(&placed, &mut bytes).ok().ok_or("memory")?;
    let decoded = decode_placed(alloc, state.shape(), bytes.as_slice());
    let placed = decoded.ok().ok_or("entry")?;
    if !is_next(state, &placed) {
        return Err("next".into());
    }
    Ok(state.apply(alloc, &placed).ok().ok_or("memory")?)
}

/// The state after the two writes of turn 0 and mark 1.
fn marked(alloc: Global, shape: &Shape) -> Result<ReplicaState, Fail> {
    let mut state = ReplicaState::open(alloc, shape).ok().ok_or("memory")?;
    for client in 0..2 {
        apply(alloc, &mut state, write(alloc, client, 0)?)?;
    }
    apply(alloc, &mut state, Entry::Mark(1))?;
    Ok(state)
}

/// The table of that state, made of its slots. The second write was displaced.
fn marked_table(alloc: Global, shape: &Shape) -> Result<Table, Fail>
    requires buckets { shape.now.buckets ≡ 8 }
    requires depth { shape.now.depth ≡ 1 }
    requires retained { shape.now.retained ≡ 2 }
    requires block { shape.now.block ≡ 24 }
    ensures same { IfOk result (λ t. t.shape ≡ shape.now) }
    ensures latest { IfOk result (λ t. All (λ p. p ≤ 3) t.positions) }
{
    let mut bytes = [0; 320];
    (bytes[87], bytes[91], bytes[95], bytes[119]) = (1, 2, 2, 1);
    let table = Table::restore(alloc, shape, &[1, 2], &bytes);
    Ok(table.ok().ok_or("table")?)
}

/// The same state, made of its parts.
fn restored(alloc: Global, shape: &Shape) -> Result<ReplicaState, Fail>
    requires buckets { shape.now.buckets ≡ 8 }
    requires depth { shape.now.depth ≡ 1 }
    requires retained { shape.now.retained ≡ 2 }
    requires block { shape.now.block ≡ 24 }
    requires filter { shape.now.filter_bits ≡ 64 }
    requires hits { shape.now.hits ≡ 1 }
{
    let table = marked_table(alloc, shape)?;
    let window = Window::restore(alloc, 64, 1, 2, &[0, 1]);
    let window = window.ok().ok_or("window")?;
    let state = ReplicaState::restore(alloc, shape, 3, 1, table, window);
    Ok(state.ok().ok_or("state")?)
}

/// The bytes of all buckets.
fn bytes(epoch: &Epoch) -> &[u8] {
    let blocks = epoch.blocks();
    if blocks.count() == 0 {
        &[]
    } else {
        blocks.run(0)
    }
}

/// Whether two epochs are the same.
fn same(a: &Epoch, b: &Epoch) -> bool {
    let numbers = (a.number(), a.upto()) == (b.number(), b.upto());
    let bits = (0..64).all(|bit| a.filter().shows(&[bit]) == b.filter().shows(&[bit]));
    numbers && bits && bytes(a) == bytes(b)
}

/// Whether two states have the same epoch of this number, and the same positions of writes.
fn agree(a: &ReplicaState, b: &ReplicaState, number: u32) -> Result<bool, Fail> {
    let first = a.pin(number).ok().ok_or("first")?;
    let second = b.pin(number).ok().ok_or("second")?;
    let lengths = (a.applied(), a.last()) == (b.applied(), b.last());
    Ok(lengths && same(&first, &second) && a.slots().positions() == b.slots().positions())
}

/// Applies the two writes of the turn before a mark, and the mark.
fn go_on(alloc: Global, state: &mut ReplicaState, mark: u32) -> Result<(), Fail> {
    for client in 0..2 {
        apply(alloc, state, write(alloc, client, mark.saturating_sub(1))?)?;
    }
    apply(alloc, state, Entry::Mark(mark))
}

/// Whether two states have the same epochs from 1 to this one.
fn agree_up_to(a: &ReplicaState, b: &ReplicaState, mark: u32) -> Result<bool, Fail> {
    for number in 1..mark.saturating_add(1) {
        if !agree(a, b, number)? {
            return Ok(false);
        }
    }
    Ok(true)
}

/// Whether a state begins with epoch 1, and its window shows the positions of both writes.
fn begins_with_epoch_1(alloc: Global, state: &ReplicaState) -> Result<bool, Fail> {
    let filter = state.window().filter(alloc).ok().ok_or("filter")?;
    let before = state.pin(0).err();
    Ok(
        state.floor() == 1
            && before == Some(PinError::Retired { floor: 1 })
            && filter.shows(&[0, 1]),
    )
}

/// Whether two states agree after each of three more marks.
fn agree_after_three_marks(
    alloc: Global,
    a: &mut ReplicaState,
    b: &mut ReplicaState,
) -> Result<bool, Fail> {
    for mark in 2..5 {
        go_on(alloc, a, mark)?;
        go_on(alloc, b, mark)?;
        if !agree_up_to(a, b, mark)? {
            return Ok(false);
        }
    }
    Ok(b.applied() == 12 && b.slots().positions() == [10, 11].as_slice())
}

/// A state that never stopped, and the same made of its parts.
fn both(alloc: Global) -> Result<Vec<ReplicaState>, Fail> {
    let shape = shape()?;
    let mut states = Vec::new(alloc);
    states.push(marked(alloc, &shape)?)?;
    states.push(restored(alloc, &shape)?)?;
    Ok(states)
}

/// Whether both agree from the first epoch that they keep on.
fn both_go_on_alike(alloc: Global, states: &mut [ReplicaState]) -> Result<bool, Fail> {
    match states {
        [a, b] => {
            if !agree(a, b, 1)? || !begins_with_epoch_1(alloc, b)? {
                return Ok(false);
            }
            agree_after_three_marks(alloc, a, b)
        }
        _ => Ok(false),
    }
}

#[test]
fn a_restored_state_goes_on_over_three_marks(rt: HostRuntime) -> Result<(), Fail> {
    let mut states = both(rt.alloc())?;
    assert!(rt; both_go_on_alike(rt.alloc(), states.as_mut_slice())?);
    Ok(())
}
