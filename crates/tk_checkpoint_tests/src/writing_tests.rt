//! What is written of a state, and when.
use crate::testing::{SMALL, after_one_turn, apply_next, open, saved, shape};
use std::test::Fail;
use tk_checkpoint::{
    CheckpointError, checkpoint, saved_is_sound, saved_reads_back, written_at_marks,
};
use tk_frames::u64_at;

#[test]
fn a_fresh_state_is_zeros_behind_its_shape(rt: HostRuntime) -> Result<(), Fail> {
    let alloc = rt.alloc();
    let bytes = saved(alloc, &open(alloc, &shape(1, SMALL)?)?)?;
    assert!(rt; bytes.len() == 1353);
    assert!(rt; bytes[..9] == [b'T', b'A', b'L', b'K', 1, 0, 0, 0, 1]);
    assert!(rt; bytes[57..].iter().all(|byte| *byte == 0));
    Ok(())
}

/// The number that eight bytes of a checkpoint are, if it has so many.
fn long_in(bytes: &[u8], place: usize) -> Option<u64> {
    if place > bytes.len() || bytes.len() - place < 8 {
        return None;
    }
    Some(u64_at(bytes, place))
}

#[test]
fn behind_a_mark_the_numbers_are_written(rt: HostRuntime) -> Result<(), Fail> {
    let alloc = rt.alloc();
    let bytes = saved(alloc, &after_one_turn(alloc)?)?;
    assert!(rt; bytes.len() == 1377);
    assert!(rt; long_in(&bytes, 57) == Some(3));
    assert!(rt; long_in(&bytes, 65) == Some((1 << 32) + 2));
    Ok(())
}

#[test]
fn behind_a_mark_the_window_is_written(rt: HostRuntime) -> Result<(), Fail> {
    let alloc = rt.alloc();
    let bytes = saved(alloc, &after_one_turn(alloc)?)?;
    assert!(rt; long_in(&bytes, 73) == Some(1));
    assert!(rt; long_in(&bytes, 77) == Some((1 << 32) + 49));
    assert!(rt; long_in(&bytes, 85) == Some(2));
    assert!(rt; long_in(&bytes, 89) == Some((2 << 32) + 18));
    Ok(())
}

/// The buckets after the first turn: two have a slot with a position, its two buckets and a block, which for the text
/// has these bytes in front.
fn buckets() -> [u8; 1280] {
    let mut bytes = [0; 1280];
    (bytes[167], bytes[171], bytes[175]) = (1, 1, 1);
    bytes[176..200].fill(0x31);
    bytes[176..180].copy_from_slice(&[0x31, 0x33, 0x59, 0x58]);
    (bytes[327], bytes[331], bytes[335]) = (2, 2, 2);
    bytes[336..360].fill(0x12);
    bytes
}

#[test]
fn behind_a_mark_the_buckets_are_written(rt: HostRuntime) -> Result<(), Fail> {
    let alloc = rt.alloc();
    let bytes = saved(alloc, &after_one_turn(alloc)?)?;
    assert!(rt; bytes.as_slice().ends_with(&buckets()));
    Ok(())
}

#[test]
fn behind_a_write_nothing_is_written(rt: HostRuntime) -> Result<(), Fail> {
    let alloc = rt.alloc();
    let mut state = after_one_turn(alloc)?;
    apply_next(alloc, &mut state, 1)?;
    let mut bytes = vec![in alloc; 7u8; 3]?;
    let refused = CheckpointError::NotAtMark {
        applied: 4,
        upto: 3,
    };
    assert!(rt; checkpoint(&state, &mut bytes) == Err(refused));
    assert!(rt; bytes.as_slice() == [7, 7, 7].as_slice());
    Ok(())
}

#[test]
fn laws_can_be_called(_rt: HostRuntime) {
    saved_reads_back();
    saved_is_sound();
    written_at_marks();
}
