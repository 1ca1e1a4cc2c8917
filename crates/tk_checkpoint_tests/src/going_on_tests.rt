//! States that go on from a checkpoint as ones that never stopped.
use crate::testing::{
    FULL, SMALL, TIGHT, after_one_turn, apply_next, apply_turn, open, saved, shape,
};
use std::alloc::Global;
use std::sync::Arc;
use std::test::Fail;
use tk_answer::Blocks;
use tk_checkpoint::restore;
use tk_replica::{Epoch, PinError, ReplicaState};
use tk_shape::Shape;

/// The checkpoint after these turns of a state that goes on from another checkpoint.
fn gone_on(
    alloc: Global,
    shape: &Shape,
    bytes: &[u8],
    from: u32,
    end: u32,
) -> Result<Vec<u8>, Fail> {
    let mut state = restore(alloc, shape, bytes).ok().ok_or("restore")?;
    for turn in from..end {
        apply_turn(alloc, &mut state, turn)?;
    }
    saved(alloc, &state)
}

/// The checkpoint after so many turns of a state that never stopped.
fn gone_through(alloc: Global, shape: &Shape, end: u32) -> Result<Vec<u8>, Fail> {
    let mut state = open(alloc, shape)?;
    for turn in 0..end {
        apply_turn(alloc, &mut state, turn)?;
    }
    saved(alloc, &state)
}

/// Whether a state that goes on from the checkpoint of mark `mark` has the checkpoint of one that
/// never stopped at the end.
fn agrees_behind(alloc: Global, shape: &Shape, mark: u32) -> Result<bool, Fail> {
    let bytes = gone_through(alloc, shape, mark)?;
    let other = gone_on(alloc, shape, &bytes, mark, shape.phases)?;
    let whole = gone_through(alloc, shape, shape.phases)?;
    Ok(whole.as_slice() == other.as_slice())
}

/// Whether it does so from each mark, in either format.
fn agrees_behind_all(alloc: Global, numbers: [u32; 12]) -> Result<bool, Fail> {
    for format in 1..3 {
        let shape = shape(format, numbers)?;
        for mark in 0..shape.phases.saturating_add(1) {
            if !agrees_behind(alloc, &shape, mark)? {
                return Ok(false);
            }
        }
    }
    Ok(true)
}

/// In every second turn the second write is displaced. It expires two writes later, as its hits do.
#[test]
fn displaced_writes_expire_behind_a_checkpoint(rt: HostRuntime) -> Result<(), Fail> {
    assert!(rt; agrees_behind_all(rt.alloc(), TIGHT)?);
    Ok(())
}

/// From the fourth mark on each slot has an entry, and each write takes the place of the oldest.
#[test]
fn a_full_table_goes_on_from_each_mark(rt: HostRuntime) -> Result<(), Fail> {
    assert!(rt; agrees_behind_all(rt.alloc(), FULL)?);
    Ok(())
}

#[test]
fn a_table_with_room_goes_on_from_each_mark(rt: HostRuntime) -> Result<(), Fail> {
    assert!(rt; agrees_behind_all(rt.alloc(), SMALL)?);
    Ok(())
}

/// The bytes of all buckets.
fn bytes_of(epoch: &Epoch) -> &[u8] {
    let blocks = epoch.blocks();
    if blocks.count() == 0 {
        &[]
    } else {
        blocks.run(0)
    }
}

/// Whether two epochs have the same number, blocks and filter.
fn are_same(a: &Epoch, b: &Epoch) -> bool {
    let numbers = (a.number(), a.upto()) == (b.number(), b.upto());
    let bits = (0..64).all(|bit| a.filter().shows(&[bit]) == b.filter().shows(&[bit]));
    numbers && bits && bytes_of(a) == bytes_of(b)
}

/// The epoch of the second turn of the run of one text, from a state after its first; and why epoch 0 isn't kept, if it
/// isn't.
fn second_epoch(
    alloc: Global,
    mut state: ReplicaState,
) -> Result<(Arc<Epoch>, Option<PinError>), Fail> {
    apply_next(alloc, &mut state, 3)?;
    let epoch = state.pin(2).ok().ok_or("the second epoch")?;
    Ok((epoch, state.pin(0).err()))
}

/// The state after the first turn, from its checkpoint.
fn after_a_checkpoint(alloc: Global) -> Result<ReplicaState, Fail> {
    let bytes = saved(alloc, &after_one_turn(alloc)?)?;
    let state = restore(alloc, &shape(1, SMALL)?, &bytes);
    Ok(state.ok().ok_or("restore")?)
}

/// Behind the checkpoint of the first turn of a run the second one is as if it had never been written, and what was
/// before it is let go.
#[test]
fn second_turn_behind_a_checkpoint(rt: HostRuntime) -> Result<(), Fail> {
    let alloc = rt.alloc();
    let (wanted, kept) = second_epoch(alloc, after_one_turn(alloc)?)?;
    let (found, retired) = second_epoch(alloc, after_a_checkpoint(alloc)?)?;
    assert!(rt; are_same(&wanted, &found));
    assert!(rt; kept.is_none() && retired == Some(PinError::Retired { floor: 1 }));
    // the dummies of the second turn have hits 19 and 20
    assert!(rt; found.upto() == 6 && found.filter().shows(&[19]) && found.filter().shows(&[20]));
    Ok(())
}
