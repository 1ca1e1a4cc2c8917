use crate::testing::{ONE_TEXT, REPORT, joined, run_tapped, source_of, taps_failing};
use std::test::Fail;
use tk_cli::Status;
use tk_io::{MemSink, MemSource};
use tk_script::Cause;

/// How the source is cut and its call that fails, the same of the sink, and the taps' call that
/// fails, 0 for none; and then the status, what is left, what the sink has, and how many bytes each
/// of two taps has.
const FAULTS: [(
    (usize, u32),
    (usize, u32),
    u32,
    Status,
    usize,
    &str,
    (usize, usize),
); 7] = [
    (
        (4096, 0),
        (4096, 0),
        0,
        Status::Done,
        0,
        WRITTEN,
        (1644, 1644),
    ),
    ((50, 2), (4096, 0), 0, Status::Read, 140, "", (0, 0)),
    ((50, 0), (10, 3), 0, Status::Write, 0, FRONT, (1644, 1644)),
    ((50, 0), (4096, 1), 0, Status::Write, 0, "", (1644, 1644)),
    ((50, 0), (4096, 0), 1, Status::Write, 0, "", (0, 0)),
    ((50, 0), (4096, 0), 3, Status::Write, 0, "", (822, 822)),
    ((50, 0), (4096, 0), 4, Status::Write, 0, "", (1644, 822)),
];

const WRITTEN: &str = "report
order 1 1 0 1 mark
reads 1 1 0 0
order 2 1 0 1 mark
reads 2 1 1 1
log 0 1 1
text 0 hi
unsent 0 0
unsent 1 0
end
";

const FRONT: &str = "report\norder 1 1 0 1";

// an object that failed goes on where it stood
#[test]
fn faults_and_calls_after_them(rt: HostRuntime) -> Result<(), Fail> {
    let alloc = rt.alloc();
    for (from, into, call, status, left, held, (first, second)) in FAULTS {
        let mut source = MemSource::new(ONE_TEXT.to_vec(alloc)?, from.0, vec![in alloc; from.1]?);
        let mut sink = MemSink::new(alloc, into.0, vec![in alloc; into.1]?);
        let mut taps = taps_failing(alloc, call)?;
        let words = &["serial"];
        let ended = run_tapped(&rt, words, &mut source, &mut sink, &mut taps)?;
        assert!(rt; ended == status);
        assert!(rt; source.left().len() == left);
        assert!(rt; sink.bytes() == held.as_bytes());
        assert!(rt; (taps.bytes(1).len(), taps.bytes(2).len()) == (first, second));

        let ended = run_tapped(&rt, words, &mut source, &mut sink, &mut taps)?;
        let cause = if left == 0 { Cause::Early } else { Cause::Form };
        assert!(rt; ended == Status::Script { line: 1, cause });
        let mut source = source_of(alloc, ONE_TEXT)?;
        let ended = run_tapped(&rt, words, &mut source, &mut sink, &mut taps)?;
        assert!(rt; ended == Status::Done);
        let both = joined(alloc, &[held.as_bytes(), REPORT])?;
        assert!(rt; sink.bytes() == both.as_slice());
        assert!(rt; taps.bytes(1).len() == first + 1644);
    }
    Ok(())
}
