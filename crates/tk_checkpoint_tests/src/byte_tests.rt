//! Each byte of a checkpoint changed in turn.
use crate::testing::{SMALL, after_one_turn, saved, shape};
use std::alloc::Global;
use std::test::Fail;
use tk_checkpoint::{RestoreError, restore};
use tk_shape::Shape;

/// Whether bytes are refused for a cause of their own, or give a state that is written as them.
fn refused_or_written_back(alloc: Global, shape: &Shape, bytes: &[u8]) -> Result<bool, Fail> {
    match restore(alloc, shape, bytes) {
        Ok(state) => Ok(saved(alloc, &state)?.as_slice() == bytes),
        Err(error) => Ok(error != RestoreError::Memory),
    }
}

/// How many bytes may be another by one, or be 255 more, and still be sound.
fn sound_changes(alloc: Global, shape: &Shape, bytes: &mut [u8]) -> Result<u32, Fail> {
    let mut sound = 0u32;
    for place in 0..bytes.len() {
        let old = bytes[place];
        bytes[place] = old ^ 1;
        if !refused_or_written_back(alloc, shape, bytes)? {
            return Err("changed".into());
        }
        if restore(alloc, shape, bytes).is_ok() {
            sound = sound.saturating_add(1);
        }
        bytes[place] = old;
    }
    Ok(sound)
}

#[test]
fn each_byte_changed_is_refused_or_written_back(rt: HostRuntime) -> Result<(), Fail> {
    let alloc = rt.alloc();
    let mut bytes = saved(alloc, &after_one_turn(alloc)?)?;
    let sound = sound_changes(alloc, &shape(1, SMALL)?, bytes.as_mut_slice())?;
    assert!(rt; sound == 54);
    Ok(())
}
