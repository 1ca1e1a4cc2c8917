use crate::testing::{ONE_TEXT, run, source_of};
use std::alloc::{AllocError, Global};
use std::sync::Wait;
use std::test::Fail;
use std::thread::Threads;
use tk_cli::Status;
use tk_io::MemSink;
use tk_script::Cause;
use tk_shape::{Field, Memory};

/// A line of the script of one text, from 1 on, what stands in its place, and how the input is
/// refused then.
const CHANGED: [(usize, &str, Status); 8] = [
    (
        2,
        "shape 1 8 4 4 24 64 1 0 2 2 1 1",
        Status::Script {
            line: 2,
            cause: Cause::Shape {
                field: Field::Servers,
                value: 1,
            },
        },
    ),
    (
        2,
        "shape 2 8 4 4 24 1 1 0 2 2 1 1",
        Status::Script {
            line: 2,
            cause: Cause::Shape {
                field: Field::Filter,
                value: 1,
            },
        },
    ),
    (
        2,
        "shape 2 8 4 4 24 64 1 9 2 2 1 1",
        Status::Script {
            line: 2,
            cause: Cause::Shape {
                field: Field::Ahead,
                value: 9,
            },
        },
    ),
    (
        3,
        "druwn",
        Status::Script {
            line: 3,
            cause: Cause::Form,
        },
    ),
    (
        4,
        "log 0 2",
        Status::Script {
            line: 4,
            cause: Cause::Number { value: 2 },
        },
    ),
    (
        5,
        "say 1 1 0 abcdefg",
        Status::Script {
            line: 5,
            cause: Cause::Room { room: 6 },
        },
    ),
    (
        17,
        "fill 32 35",
        Status::Tape {
            want: 256,
            got: 255,
        },
    ),
    (
        17,
        "fill 32 37",
        Status::Tape {
            want: 256,
            got: 257,
        },
    ),
];

/// The script of one text with a line changed, and as many lines of it as are told.
fn changed(alloc: Global, number: usize, new: &[u8], count: usize) -> Result<Vec<u8>, AllocError> {
    let mut text = Vec::new(alloc);
    for (i, line) in ONE_TEXT
        .split(|byte| *byte == b'\n')
        .take(count)
        .enumerate()
    {
        text.extend_from_slice(if i + 1 == number { new } else { line })?;
        text.push(b'\n')?;
    }
    Ok(text)
}

/// The status that `serial` ends with over an input, of which it has to read all and write nothing.
fn refused<R: AllocGlobal + Threads + Wait + Sync>(
    rt: &R,
    input: &[u8],
) -> Result<(Status, usize, usize), Memory> {
    let alloc = rt.alloc();
    let mut source = source_of(alloc, input)?;
    let mut sink = MemSink::new(alloc, 4096, Vec::new(alloc));
    let status = run(rt, &["serial"], &mut source, &mut sink)?;
    Ok((status, source.left().len(), sink.bytes().len()))
}

#[test]
fn refused_inputs(rt: HostRuntime) -> Result<(), Fail> {
    let alloc = rt.alloc();
    for (number, line, status) in CHANGED {
        let input = changed(alloc, number, line.as_bytes(), 18)?;
        assert!(rt;
            refused(&rt, input.as_slice())? == (status, 0, 0),
            "at {line}"
        );
    }
    for lines in [0, 1, 4, 15] {
        let input = changed(alloc, 0, b"", lines)?;
        let early = Status::Script {
            line: lines as u64 + 1,
            cause: Cause::Early,
        };
        assert!(rt;
            refused(&rt, input.as_slice())? == (early, 0, 0),
            "at {lines}"
        );
    }
    Ok(())
}

/// As many bytes as an input may have, and one more.
#[test]
fn longest_inputs(rt: HostRuntime) -> Result<(), Fail> {
    let alloc = rt.alloc();
    let form = Status::Script {
        line: 1,
        cause: Cause::Form,
    };
    for (size, status) in [(8388608, form), (8388609, Status::TooLong)] {
        let input = vec![in alloc; 0u8; size]?;
        assert!(rt; refused(&rt, input.as_slice())? == (status, 0, 0));
    }
    Ok(())
}
