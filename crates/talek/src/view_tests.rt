use crate::testing::tried;
use std::alloc::{AllocError, Global};
use std::test::Fail;
use tk_cli::Status;
use tk_shape::Field;

/// The script of one text, its serial history, and the tape.
const VIEWED: &[u8] = b"talek 1
shape 2 8 4 4 24 64 1 0 2 2 1 1
drawn
log 0 1
say 1 1 0 hi
end
history
order 1 1 0 1 mark
reads 1 1 0 0
order 2 1 0 1 mark
reads 2 1 1 1
end
tape
fill 11 36
fill 12 36
fill 13 36
fill 14 36
fill 21 10
fill 22 10
fill 23 10
fill 24 10
fill 31 36
fill 32 36
end
";

/// What server 1 sees of it.
const FRAMES: &str =
    "050100000000000000010000000000000000000000010000000100000031313359583131313131313131313131313131313131313131
050100000000000000020000000100000000000000020000000200000012121212121212121212121212121212121212121212121212
0401000000000000000300000001
02010000000000000000000000002121
02010000000100000000000000002222
050100000000000000040000000000000001000000030000000300000013131313131313131313131313131313131313131313131313
050100000000000000050000000100000001000000040000000400000014141414141414141414141414141414141414141414141414
0401000000000000000600000002
02010000000000000001000000012323
02010000000100000001000000012424
";

/// Three servers' script of one text, the same without it, a history, and a tape of the first.
pub(crate) const MIRRORED: &[u8] = b"talek 1
shape 3 8 4 4 24 64 1 0 2 1 1 1
drawn
log 0 1
say 1 1 0 hi
end
talek 1
shape 3 8 4 4 24 64 1 0 2 1 1 1
drawn
log 0 1
end
history
order 1 1 0 1 mark
reads 1 1 0 0
end
tape
fill 15 36
fill 12 36
fill 21 12
x 0000000000000000a00bc00d
fill 31 36
end
";

/// Its tape as it is printed.
pub(crate) const TAPE: &str = "tape
x 1515151515151515151515151515151515151515151515151515151515151515
x 1515151512121212121212121212121212121212121212121212121212121212
x 12121212121212122121212121212121212121210000000000000000a00bc00d
x 3131313131313131313131313131313131313131313131313131313131313131
x 31313131
end
";

/// The tapes over which the script without a text shows the same to all servers but the first, the
/// second, the third.
pub(crate) const OTHERS: [&str; 3] = [
    "tape
x 3131313131313131313131313133595831313131313131313131313131313131
x 3131313112121212121212121212121212121212121212121212121212121212
x 12121212121212122121212121212121212121210000000000000000820be20d
x 1515151515151515151515151515151515151515151515151515151515151515
x 15151515
end
",
    "tape
x 3131313131313131313131313133595831313131313131313131313131313131
x 3131313112121212121212121212121212121212121212121212121212121212
x 12121212121212122121212121212121212121210000000000000000a029c02f
x 1515151515151515151515151515151515151515151515151515151515151515
x 15151515
end
",
    "tape
x 3131313131313131313131313133595831313131313131313131313131313131
x 3131313112121212121212121212121212121212121212121212121212121212
x 12121212121212122121212121212121212121210000000000000000a00bc00d
x 1515151515151515151515151515151515151515151515151515151515151515
x 15151515
end
",
];

/// Whether it is a view, else a mirrored tape; a line of its input, from 1 on, what stands in its
/// place, a server, and how the input is refused then.
const REFUSED: [(bool, usize, &str, &str, Status); 10] = [
    (true, 0, "", "3", Status::Hidden { got: 3, servers: 2 }),
    (true, 0, "", "0", Status::Hidden { got: 0, servers: 2 }),
    (true, 9, "reads 1 1 0 2", "3", Status::History { at: 9 }),
    (
        true,
        23,
        "fill 32 35",
        "3",
        Status::Tape {
            want: 256,
            got: 255,
        },
    ),
    (
        false,
        13,
        "order 1 1 0 0 mark",
        "1",
        Status::History { at: 13 },
    ),
    (false, 0, "", "4", Status::Hidden { got: 4, servers: 3 }),
    (
        false,
        8,
        "shape 3 8 4 4 24 64 1 0 2 2 1 1",
        "4",
        Status::Shapes {
            field: Field::Phases,
            a: 1,
            b: 2,
        },
    ),
    (
        false,
        7,
        "talek 2",
        "4",
        Status::Shapes {
            field: Field::Format,
            a: 1,
            b: 2,
        },
    ),
    (
        false,
        21,
        "fill 31 37",
        "4",
        Status::Tape {
            want: 132,
            got: 133,
        },
    ),
    (
        false,
        3,
        "keyed",
        "1",
        Status::Script {
            line: 3,
            cause: tk_script::Cause::Form,
        },
    ),
];

/// Some lines of a text, from 1 on.
pub(crate) fn lines_from(
    alloc: Global,
    text: &[u8],
    from: usize,
    to: usize,
) -> Result<Vec<u8>, AllocError> {
    let mut found = Vec::new(alloc);
    for (i, line) in text.split(|byte| *byte == b'\n').enumerate() {
        if from <= i + 1 && i < to {
            found.extend_from_slice(line)?;
            found.push(b'\n')?;
        }
    }
    Ok(found)
}

#[test]
fn views_and_mirrors(rt: HostRuntime) -> Result<(), Fail> {
    let alloc = rt.alloc();
    let (end, written) = tried(&rt, &["view", "1"], VIEWED)?;
    assert!(rt; end == (Status::Done, 0, 0));
    assert!(rt; written.as_slice() == FRAMES.as_bytes());
    for (hidden, tape) in ["1", "2", "3"].iter().zip(OTHERS.iter()) {
        let (end, written) = tried(&rt, &["mirror", hidden], MIRRORED)?;
        assert!(rt; end == (Status::Done, 0, 0));
        assert!(rt; written.as_slice() == tape.as_bytes());
        // mirrored back it is the first tape
        let scripts = lines_from(alloc, MIRRORED, 1, 6)?;
        let history = lines_from(alloc, MIRRORED, 12, 15)?;
        let mut back = lines_from(alloc, MIRRORED, 7, 11)?;
        back.extend_from_slice(scripts.as_slice())?;
        back.extend_from_slice(history.as_slice())?;
        back.extend_from_slice(tape.as_bytes())?;
        let (end, written) = tried(&rt, &["mirror", hidden], back.as_slice())?;
        assert!(rt; end == (Status::Done, 0, 0));
        assert!(rt; written.as_slice() == TAPE.as_bytes());
    }
    Ok(())
}

#[test]
fn refused_views_and_mirrors(rt: HostRuntime) -> Result<(), Fail> {
    let alloc = rt.alloc();
    for (viewed, number, line, server, refusal) in REFUSED {
        let (word, text) = if viewed {
            ("view", VIEWED)
        } else {
            ("mirror", MIRRORED)
        };
        let before = lines_from(alloc, text, 1, number.saturating_sub(1))?;
        let mut after = lines_from(alloc, text, number + 1, 99)?;
        // (the text ends with a line break already)
        after.pop();
        let mut input = before;
        if number > 0 {
            input.extend_from_slice(line.as_bytes())?;
            input.push(b'\n')?;
        }
        input.extend_from_slice(after.as_slice())?;
        let (end, written) = tried(&rt, &[word, server], input.as_slice())?;
        assert!(rt; end == (refusal, 0, 0), "at {line}");
        assert!(rt; written.is_empty());
    }
    Ok(())
}
