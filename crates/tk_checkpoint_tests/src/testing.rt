//! What the tests share: shapes, entries, states that apply them, and checkpoints.
ghost use Rattle.std.specs.Prelude.{◌≡◌, ◌+◌, true};
ghost use Rattle.tk_frames.specs.InOrder.{IsNextAt};
ghost use Rattle.tk_frames.specs.Ranges.{IsPlaced};

use crate::one_text::entries;
use std::alloc::Global;
use std::test::Fail;
use tk_checkpoint::{RestoreError, checkpoint, restore};
use tk_frames::{Entry, Placed, WriteFrame, decode_placed, encode_placed};
use tk_replica::ReplicaState;
use tk_shape::{Bytes, Shape, Words};

/// Two servers, eight buckets of four slots, of which four writes are kept; blocks of 24 bytes, 64
/// bits of a filter and one hit a write; two clients, and two phases of one tick.
pub(crate) const SMALL: [u32; 12] = [2, 8, 4, 4, 24, 64, 1, 0, 2, 2, 1, 1];

/// Buckets of one slot, and two writes that are kept; two hits a write, and six phases.
pub(crate) const TIGHT: [u32; 12] = [2, 8, 1, 2, 24, 64, 2, 0, 2, 6, 1, 1];

/// Buckets of one slot, and as many writes that are kept; eight phases.
pub(crate) const FULL: [u32; 12] = [2, 8, 1, 8, 24, 64, 1, 0, 2, 8, 1, 1];

pub(crate) fn shape(format: u32, numbers: [u32; 12]) -> Result<Shape, Fail> {
    if format != 1 && format != 2 {
        return Err("format".into());
    }
    Ok(Shape::of(format, numbers).ok().ok_or("shape")?)
}

/// A write of a client in a turn to a bucket twice, whose hits and block are these numbers.
fn write(
    alloc: Global,
    shape: &Shape,
    client: u32,
    turn: u32,
    bucket: u32,
    hit: u8,
) -> Result<Entry, Fail> {
    Ok(Entry::Write(WriteFrame {
        client,
        turn,
        first: bucket,
        second: bucket,
        hits: Words::from_vec(vec![in alloc; u32::from(hit); shape.hits as usize]?),
        block: Bytes::from_vec(vec![in alloc; hit; shape.block as usize]?),
    }))
}

/// Whether an entry is the next one for a state.
fn is_next(state: &ReplicaState, placed: &Placed) -> bool
    requires { IsPlaced state.now.shape placed.now }
    ensures { result ≡ true → IsNextAt state.now.shape (state.now.applied + 1)
        (state.now.last + 1) placed.now }
{
    if placed.position - 1 != state.applied() {
        return false;
    }
    match &placed.entry {
        Entry::Write(_) => true,
        Entry::Mark(number) => *number - 1 == state.last(),
    }
}

/// Applies the next entry, as its bytes give it.
fn apply(alloc: Global, state: &mut ReplicaState, entry: Entry) -> Result<(), Fail> {
    let placed = Placed {
        position: state.applied().saturating_add(1),
        entry,
    };
    let mut bytes = Vec::new(alloc);
    encode_placed(&placed, &mut bytes).ok().ok_or("memory")?;
    let decoded = decode_placed(alloc, state.shape(), bytes.as_slice());
    let placed = decoded.ok().ok_or("entry")?;
    if !is_next(state, &placed) {
        return Err("next".into());
    }
    Ok(state.apply(alloc, &placed).ok().ok_or("memory")?)
}

/// The state before any entry.
pub(crate) fn open(alloc: Global, shape: &Shape) -> Result<ReplicaState, Fail> {
    Ok(ReplicaState::open(alloc, shape).ok().ok_or("open")?)
}

/// The buckets of the two writes of a turn. Where eight writes are kept they go through all
/// buckets; else both writes of every second turn want bucket 1.
fn buckets_of(shape: &Shape, turn: u32) -> (u32, u32) {
    if shape.retained == 8 {
        (2 * (turn & 3), 2 * (turn & 3) + 1)
    } else {
        (1, 2 - (turn & 1))
    }
}

/// Applies the two writes of a turn, which have their own hits, and the mark that ends it.
pub(crate) fn apply_turn(alloc: Global, state: &mut ReplicaState, turn: u32) -> Result<(), Fail> {
    let shape = *state.shape();
    let later = (turn & 7) as u8;
    let (first, second) = buckets_of(&shape, turn);
    apply(
        alloc,
        state,
        write(alloc, &shape, 0, turn, first, 49 + later)?,
    )?;
    apply(
        alloc,
        state,
        write(alloc, &shape, 1, turn, second, 18 + later)?,
    )?;
    apply(alloc, state, Entry::Mark(turn.saturating_add(1)))
}

/// Applies the next so many entries of the run of one text.
pub(crate) fn apply_next(alloc: Global, state: &mut ReplicaState, count: u64) -> Result<(), Fail> {
    let shape = *state.shape();
    let start = state.applied();
    let mut position = 0u64;
    for entry in entries(alloc, &shape)? {
        if start <= position && position - start < count {
            apply(alloc, state, entry)?;
        }
        position = position.saturating_add(1);
    }
    Ok(())
}

/// The state of a small shape after the first turn of that run.
pub(crate) fn after_one_turn(alloc: Global) -> Result<ReplicaState, Fail> {
    let mut state = open(alloc, &shape(1, SMALL)?)?;
    apply_next(alloc, &mut state, 3)?;
    Ok(state)
}

/// The checkpoint of a state.
pub(crate) fn saved(alloc: Global, state: &ReplicaState) -> Result<Vec<u8>, Fail> {
    let mut bytes = Vec::new(alloc);
    checkpoint(state, &mut bytes).ok().ok_or("checkpoint")?;
    Ok(bytes)
}

/// Why bytes are refused, if they are.
pub(crate) fn refusal(alloc: Global, shape: &Shape, bytes: &[u8]) -> Option<RestoreError> {
    restore(alloc, shape, bytes).err()
}
