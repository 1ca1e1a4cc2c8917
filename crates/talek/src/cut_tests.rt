use crate::testing::{ONE_TEXT, REPORT};
use crate::traces::{Object, Traces, traces_of};
use std::alloc::{AllocError, Global};
use std::test::Fail;
use tk_cli::Status;
use tk_script::Cause;

/// How many lines of the script of one text and of its tape are whole, what stands after them, and
/// how `serial` ends.
const ENDS: [(usize, &str, Status); 6] = [
    (18, "", Status::Done),
    (17, "end", Status::Done),
    (
        17,
        "en",
        Status::Script {
            line: 18,
            cause: Cause::Form,
        },
    ),
    (
        16,
        "fill 32 3",
        Status::Script {
            line: 18,
            cause: Cause::Early,
        },
    ),
    (
        4,
        "say 1 1 0",
        Status::Script {
            line: 5,
            cause: Cause::Form,
        },
    ),
    (
        4,
        "say 1 1 0 ",
        Status::Script {
            line: 6,
            cause: Cause::Early,
        },
    ),
];

/// Some lines of that text, and what stands after them.
fn cut(alloc: Global, lines: usize, end: &str) -> Result<Vec<u8>, AllocError> {
    let mut text = Vec::new(alloc);
    for line in ONE_TEXT.split(|byte| *byte == b'\n').take(lines) {
        text.extend_from_slice(line)?;
        text.push(b'\n')?;
    }
    text.extend_from_slice(end.as_bytes())?;
    Ok(text)
}

/// Whether all was read, and the report written exactly where the words are done.
fn is_told(traces: &Traces) -> bool {
    let done = traces.status == Status::Done;
    let report = if done { REPORT } else { b"" };
    traces.left == 0 && traces.written.as_slice() == report && traces.first.is_empty() != done
}

#[test]
fn texts_cut_off(rt: HostRuntime) -> Result<(), Fail> {
    let alloc = rt.alloc();
    for lines in 0..18 {
        let input = cut(alloc, lines, "")?;
        let traces = traces_of(&rt, &["serial"], input.as_slice(), Object::Source, 0)?;
        let status = Status::Script {
            line: lines as u64 + 1,
            cause: Cause::Early,
        };
        assert!(rt; traces.status == status, "behind line {lines}");
        assert!(rt; is_told(&traces), "behind line {lines}");
    }
    for (lines, end, status) in ENDS {
        let input = cut(alloc, lines, end)?;
        let traces = traces_of(&rt, &["serial"], input.as_slice(), Object::Source, 0)?;
        assert!(rt; traces.status == status, "behind {end}");
        assert!(rt; is_told(&traces), "behind {end}");
    }
    Ok(())
}
