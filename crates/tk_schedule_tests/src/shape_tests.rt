use std::test::Fail;
use tk_shape::{Bytes, Differs, Field, Shape, ShapeError, Words};

/// Two servers, eight buckets of four slots, and two clients in two phases of a tick, with one log,
/// whose blocks have room for six bytes.
const SMALL: [u32; 12] = [2, 8, 4, 4, 24, 64, 1, 0, 2, 2, 1, 1];

#[test]
fn lengths_of_a_small_shape(rt: HostRuntime) -> Result<(), Fail> {
    let shape = Shape::new(SMALL).ok().ok_or("in range")?;
    assert!(rt; shape.numbers().as_slice() == SMALL.as_slice());
    let lengths = [
        (shape.turns(), 2),
        (shape.slot_len(), 40),
        (shape.width(), 160),
        (shape.vector_len(), 1),
        (shape.cell_len(), 36),
        (shape.read_cell_len(), 10),
        (shape.write_len(), 46),
        (shape.record_len(), 54),
        (shape.read_len(), 16),
        (shape.reply_len(), 334),
    ];
    for (got, want) in lengths {
        assert!(rt; got == want);
    }
    assert!(rt; shape.tape_len() == 256);
    Ok(())
}

#[test]
fn lengths_of_format_2(rt: HostRuntime) -> Result<(), Fail> {
    let plain = Shape::new(SMALL).ok().ok_or("in range")?;
    let shape = Shape::of(2, SMALL).ok().ok_or("in range")?;
    assert!(rt; shape.numbers().as_slice() == SMALL.as_slice());
    let lengths = [
        (shape.seed_len(), 32),
        (shape.piece_len(), 33),
        (shape.read_cell_len(), 74),
        (shape.read_len(), 16),
        (shape.seed_read_len(false), 78),
        (shape.seed_read_len(true), 80),
    ];
    for (got, want) in lengths {
        assert!(rt; got == want);
    }
    assert!(rt; shape.tape_len() == 512);
    assert!(rt;
        plain.differs(&shape)
            == Some(Differs {
                field: Field::Format,
                a: 1,
                b: 2,
            })
    );
    Ok(())
}

#[test]
fn broken_limits(rt: HostRuntime) {
    let servers = [1, 8, 4, 4, 24, 64, 1, 0, 2, 2, 1, 1];
    let schedule = [2, 8, 4, 4, 24, 64, 1, 0, 64, 256, 4, 1];
    let work = [8, 4096, 8, 4, 112, 64, 1, 0, 64, 256, 1, 1];
    for (numbers, field, value) in [
        (servers, Field::Servers, 1),
        (schedule, Field::Schedule, 65536),
        (work, Field::Work, 549755813888),
    ] {
        assert!(rt; Shape::new(numbers).err() == Some(ShapeError { field, value }));
    }
}

#[test]
fn lists_go_in_and_out(rt: HostRuntime) -> Result<(), Fail> {
    let bytes = Bytes::from_slice(rt.alloc(), b"talek")
        .ok()
        .ok_or("memory")?;
    assert!(rt; bytes.as_slice() == b"talek".as_slice());
    assert!(rt; bytes.clone()?.as_slice() == b"talek".as_slice());
    let bytes = Bytes::from_vec(bytes.into_vec());
    assert!(rt; bytes.into_vec().len() == 5);
    let words = Words::from_slice(rt.alloc(), &[1, 4294967295])
        .ok()
        .ok_or("memory")?;
    assert!(rt; words.as_slice() == [1, 4294967295].as_slice());
    assert!(rt; words.clone()?.as_slice() == words.as_slice());
    let words = Words::from_vec(words.into_vec());
    assert!(rt; words.into_vec().len() == 2);
    Ok(())
}

#[test]
fn shapes_differ(rt: HostRuntime) -> Result<(), Fail> {
    let small = Shape::new(SMALL).ok().ok_or("in range")?;
    assert!(rt; small.differs(&small).is_none());
    let other = [2, 8, 4, 5, 24, 64, 1, 0, 2, 2, 1, 7];
    let other = Shape::new(other).ok().ok_or("in range")?;
    let (field, a, b) = (Field::Retained, 4, 5);
    assert!(rt; small.differs(&other) == Some(Differs { field, a, b }));
    assert!(rt; field.name() == b"retained".as_slice());
    Ok(())
}
