use crate::inputs::{ALIKE, Input, alike, read};
use std::alloc::Global;
use std::test::Fail;
use tk_privacy::{MirrorError, mirror};
use tk_schedule::History;
use tk_shape::{Differs, Field};
use tk_words::Tape;

/// Three servers, over two phases, and words for them.
const LONGER: &[u8] = b"talek 1
shape 3 8 4 4 24 64 1 0 2 2 1 1
drawn
log 0 1
end
tape
fill 11 264
end
";

/// What the mirror of two scripts is over the serial history, with the words of the first.
fn mirrored(
    alloc: Global,
    first: &[u8],
    second: &[u8],
    hidden: u32,
) -> Result<Result<Tape, MirrorError>, Fail> {
    let (a, tape) = read(alloc, first)?;
    let (b, _tape) = read(alloc, second)?;
    let history = History::serial(alloc, &a.shape)?;
    Ok(mirror(alloc, &a, &b, &history, hidden, tape))
}

/// Whether the mirror of two scripts has the words of the second.
fn gives(alloc: Global, first: &Input, second: &Input, hidden: u32) -> Result<bool, Fail> {
    let (first, second) = (first.text(alloc)?, second.text(alloc)?);
    let found = mirrored(alloc, &first, &second, hidden)?;
    let (_script, there) = read(alloc, &second)?;
    Ok(found.ok().ok_or("mirrored")?.as_bytes() == there.as_bytes())
}

#[test]
fn mirrored_words(rt: HostRuntime) -> Result<(), Fail> {
    let alloc = rt.alloc();
    for format in [1, 2] {
        for (servers, hidden, speaking, silent) in ALIKE {
            let (speaking, silent) = alike(format, servers, [speaking, silent]);
            let there = gives(alloc, &speaking, &silent, hidden)?;
            let back = gives(alloc, &silent, &speaking, hidden)?;
            assert!(rt; there & back, "{format}, {servers}, {hidden}");
        }
    }
    Ok(())
}

#[test]
fn mirrors_refused(rt: HostRuntime) -> Result<(), Fail> {
    let alloc = rt.alloc();
    let phases = MirrorError::Shapes(Differs {
        field: Field::Phases,
        a: 1,
        b: 2,
    });
    let formats = MirrorError::Shapes(Differs {
        field: Field::Format,
        a: 1,
        b: 2,
    });
    let (speaking, silent) = alike(1, 3, ["a00bc00d", "820be20d"]);
    let (_, seeded) = alike(2, 3, ["a00bc00d", "820be20d"]);
    let first = speaking.text(alloc)?;
    let silent = silent.text(alloc)?;
    let seeded = seeded.text(alloc)?;
    for (second, hidden, error) in [
        (LONGER, 1, phases),
        // the shapes come first
        (LONGER, 4, phases),
        (seeded.as_slice(), 1, formats),
        (
            silent.as_slice(),
            4,
            MirrorError::Hidden { got: 4, servers: 3 },
        ),
        (
            silent.as_slice(),
            0,
            MirrorError::Hidden { got: 0, servers: 3 },
        ),
    ] {
        let found = mirrored(alloc, &first, second, hidden)?;
        assert!(rt; found.err() == Some(error));
    }
    Ok(())
}
