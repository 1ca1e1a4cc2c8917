//! Bytes that are refused, each for its first fault.
use crate::testing::{SMALL, TIGHT, after_one_turn, refusal, saved, shape};
use std::alloc::Global;
use std::test::Fail;
use tk_checkpoint::RestoreError;
use tk_shape::{Differs, Field};

/// Why a checkpoint of a small shape is refused in which one byte is another.
fn refused_with(alloc: Global, place: usize, byte: u8) -> Result<Option<RestoreError>, Fail> {
    let mut bytes = saved(alloc, &after_one_turn(alloc)?)?;
    if place < bytes.len() {
        bytes[place] = byte;
    }
    Ok(refusal(alloc, &shape(1, SMALL)?, bytes.as_slice()))
}

/// Why the first so many bytes of it are.
fn refused_cut(alloc: Global, len: usize) -> Result<Option<RestoreError>, Fail> {
    let mut bytes = saved(alloc, &after_one_turn(alloc)?)?;
    bytes.truncate(len);
    Ok(refusal(alloc, &shape(1, SMALL)?, bytes.as_slice()))
}

#[test]
fn letters_and_version_are_named(rt: HostRuntime) -> Result<(), Fail> {
    let alloc = rt.alloc();
    let refused = refused_with(alloc, 0, 0)?;
    assert!(rt; refused == Some(RestoreError::Magic));
    let refused = refused_with(alloc, 3, b'k')?;
    assert!(rt; refused == Some(RestoreError::Magic));
    let refused = refused_with(alloc, 4, 2)?;
    assert!(rt; refused == Some(RestoreError::Version { got: 2 }));
    Ok(())
}

#[test]
fn numbers_in_front_are_named(rt: HostRuntime) -> Result<(), Fail> {
    let alloc = rt.alloc();
    let refused = refused_with(alloc, 64, 7)?;
    assert!(rt; refused == Some(RestoreError::Applied { got: 7 }));
    let refused = refused_with(alloc, 64, 0)?;
    assert!(rt; refused == Some(RestoreError::Last { got: 1 }));
    let refused = refused_with(alloc, 68, 0)?;
    assert!(rt; refused == Some(RestoreError::Last { got: 0 }));
    let refused = refused_with(alloc, 68, 3)?;
    assert!(rt; refused == Some(RestoreError::Last { got: 3 }));
    Ok(())
}

#[test]
fn other_counts_are_named(rt: HostRuntime) -> Result<(), Fail> {
    let alloc = rt.alloc();
    let refused = refused_with(alloc, 68, 2)?;
    assert!(rt; refused == Some(RestoreError::Count { want: 1, got: 2 }));
    let refused = refused_with(alloc, 72, 3)?;
    assert!(rt; refused == Some(RestoreError::Count { want: 2, got: 3 }));
    Ok(())
}

#[test]
fn writes_of_the_window_are_named(rt: HostRuntime) -> Result<(), Fail> {
    let alloc = rt.alloc();
    let refused = refused_with(alloc, 80, 0)?;
    assert!(rt; refused == Some(RestoreError::Window { at: 0 }));
    let refused = refused_with(alloc, 92, 1)?;
    assert!(rt; refused == Some(RestoreError::Window { at: 1 }));
    let refused = refused_with(alloc, 92, 3)?;
    assert!(rt; refused == Some(RestoreError::Window { at: 1 }));
    let refused = refused_with(alloc, 84, 64)?;
    assert!(rt; refused == Some(RestoreError::Window { at: 0 }));
    let refused = refused_with(alloc, 80, 2)?;
    assert!(rt; refused == Some(RestoreError::Window { at: 1 }));
    Ok(())
}

#[test]
fn slots_are_named(rt: HostRuntime) -> Result<(), Fail> {
    let alloc = rt.alloc();
    let refused = refused_with(alloc, 1376, 1)?;
    assert!(rt; refused == Some(RestoreError::Slot { bucket: 7, slot: 3 }));
    let refused = refused_with(alloc, 97, 1)?;
    assert!(rt; refused == Some(RestoreError::Slot { bucket: 0, slot: 0 }));
    let refused = refused_with(alloc, 264, 2)?;
    assert!(rt; refused == Some(RestoreError::Slot { bucket: 2, slot: 0 }));
    Ok(())
}

#[test]
fn bytes_of_another_shape_are_named(rt: HostRuntime) -> Result<(), Fail> {
    let alloc = rt.alloc();
    let bytes = saved(alloc, &after_one_turn(alloc)?)?;
    let format = Differs {
        field: Field::Format,
        a: 2,
        b: 1,
    };
    let other = refusal(alloc, &shape(2, SMALL)?, bytes.as_slice());
    assert!(rt; other == Some(RestoreError::Shape(format)));
    let depth = Differs {
        field: Field::Depth,
        a: 1,
        b: 4,
    };
    let tight = refusal(alloc, &shape(1, TIGHT)?, bytes.as_slice());
    assert!(rt; tight == Some(RestoreError::Shape(depth)));
    Ok(())
}

#[test]
fn bytes_that_are_cut_are_named_by_their_length(rt: HostRuntime) -> Result<(), Fail> {
    let alloc = rt.alloc();
    let short = RestoreError::Length {
        want: 1353,
        got: 1352,
    };
    assert!(rt; refused_cut(alloc, 1352)? == Some(short));
    let none = RestoreError::Length { want: 1353, got: 0 };
    assert!(rt; refused_cut(alloc, 0)? == Some(none));
    let cut = RestoreError::Length {
        want: 1377,
        got: 1376,
    };
    assert!(rt; refused_cut(alloc, 1376)? == Some(cut));
    assert!(rt; refused_cut(alloc, 1377)?.is_none());
    Ok(())
}
