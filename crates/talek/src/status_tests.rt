use std::alloc::Global;
use std::test::Fail;
use tk_cli::{Status, exit_with, status_line};
use tk_script::Cause;
use tk_shape::Field;

/// A line that is refused, and the cause.
const REFUSED: [(u64, Cause, &str); 8] = [
    (1, Cause::Early, "talek: line 1: early"),
    (3, Cause::Form, "talek: line 3: form"),
    (2, WORK, "talek: line 2: shape work 549755813889"),
    (4, Cause::Number { value: 7 }, "talek: line 4: number 7"),
    (6, Cause::Order, "talek: line 6: order"),
    (5, Cause::Room { room: 6 }, "talek: line 5: room 6"),
    (5, Cause::Text { at: 0 }, "talek: line 5: text 0"),
    (19, Cause::After, "talek: line 19: after"),
];

const SHAPES: Status = Status::Shapes {
    field: Field::Filter,
    a: 64,
    b: 128,
};

const FORMATS: Status = Status::Shapes {
    field: Field::Format,
    a: 1,
    b: 2,
};

const WORK: Cause = Cause::Shape {
    field: Field::Work,
    value: 549755813889,
};

/// Whether a status is told by this line, and the process ends with it, where there is one, and with this code.
fn is_told(alloc: Global, status: &Status, line: &str, code: u8) -> Result<bool, Fail> {
    let mut out = Vec::new(alloc);
    status_line(alloc, status, &mut out)?;
    let mut wanted = Vec::from_slice(alloc, line.as_bytes())?;
    if *status != Status::Done {
        wanted.push(b'\n')?;
    }
    let exit = exit_with(alloc, status);
    let written = exit.line?;
    Ok(
        out.as_slice() == line.as_bytes()
            && status.code() == code
            && written.as_slice() == wanted.as_slice()
            && exit.code == code,
    )
}

#[test]
fn status_lines(rt: HostRuntime) -> Result<(), Fail> {
    let alloc = rt.alloc();
    for (status, line, code) in [
        (Status::Done, "", 0),
        (Status::Memory, "talek: memory", 1),
        (Status::Usage, "talek: usage", 2),
        (Status::Read, "talek: read", 4),
        (Status::Write, "talek: write", 5),
        (Status::TooLong, "talek: input over 8388608 bytes", 6),
        (Status::History { at: 13 }, "talek: history line 13", 7),
        (SHAPES, "talek: shapes filter 64 128", 8),
        (FORMATS, "talek: shapes format 1 2", 8),
        (Status::Tape { want: 256, got: 0 }, "talek: tape 256 0", 9),
        (
            Status::Hidden { got: 4, servers: 3 },
            "talek: server 4 of 3",
            10,
        ),
        (
            Status::Wide { want: 4528640 },
            "talek: tape over 4528640",
            12,
        ),
        (
            Status::Phase { got: 3, phases: 2 },
            "talek: phase 3 of 2",
            13,
        ),
    ] {
        assert!(rt; is_told(alloc, &status, line, code)?, "at {line}");
    }
    for (line, cause, text) in REFUSED {
        let status = Status::Script { line, cause };
        assert!(rt; is_told(alloc, &status, text, 3)?, "at {text}");
    }
    Ok(())
}
