use crate::testing::{ONE_TEXT, REPORT};
use crate::traces::{Object, Traces, traces_of};
use std::test::Fail;
use tk_cli::Status;

/// An object, at how many calls it can fail, and how a run of one text ends then.
type Fault = (Object, u32, Status);

/// Of serial runs: 190 bytes are read, and their end; 119 are written; two servers have two turns.
const FAULTS: [Fault; 3] = [
    (Object::Source, 191, Status::Read),
    (Object::Sink, 12, Status::Write),
    (Object::Taps, 4, Status::Write),
];

/// Of runs with threads: there a history can come about that delivers nothing, whose report has 109
/// bytes.
const FAULTS_OF_THREADS: [Fault; 3] = [
    (Object::Source, 191, Status::Read),
    (Object::Sink, 11, Status::Write),
    (Object::Taps, 4, Status::Write),
];

/// How many bytes are left, how many are written, and how many both taps have got, where a call of
/// an object fails: a call takes one byte, writes ten, and gives a tap the 822 of a turn.
fn lengths(object: Object, call: u32) -> (usize, usize, usize) {
    let before = call.saturating_sub(1) as usize;
    match object {
        Object::Source => (190usize.saturating_sub(before), 0, 0),
        Object::Sink => (0, 10 * before, 3288),
        Object::Taps => (0, 0, 822 * before),
    }
}

fn lengths_of(traces: &Traces) -> (usize, usize, usize) {
    let tapped = traces.first.len().saturating_add(traces.second.len());
    (traces.left, traces.written.len(), tapped)
}

#[test]
fn faults_of_serial_runs(rt: HostRuntime) -> Result<(), Fail> {
    let words = ["serial"].as_slice();
    let whole = traces_of(&rt, words, ONE_TEXT, Object::Source, 0)?;
    assert!(rt; lengths_of(&whole) == (0, 119, 3288));
    assert!(rt; whole.written.as_slice() == REPORT);
    for (object, calls, status) in FAULTS {
        for call in 1..=calls {
            let traces = traces_of(&rt, words, ONE_TEXT, object, call)?;
            assert!(rt; traces.status == status, "at {object:?} {call}");
            assert!(rt;
                lengths_of(&traces) == lengths(object, call),
                "at {object:?} {call}"
            );
            assert!(rt; traces.is_front_of(&whole), "at {object:?} {call}");
        }
        assert!(rt; traces_of(&rt, words, ONE_TEXT, object, calls.saturating_add(1))? == whole);
    }
    Ok(())
}

#[test]
fn faults_of_runs_with_threads(rt: HostRuntime) -> Result<(), Fail> {
    let words = ["run", "2"].as_slice();
    for (object, calls, status) in FAULTS_OF_THREADS {
        for call in 1..=calls {
            let traces = traces_of(&rt, words, ONE_TEXT, object, call)?;
            assert!(rt; traces.status == status, "at {object:?} {call}");
            assert!(rt;
                lengths_of(&traces) == lengths(object, call),
                "at {object:?} {call}"
            );
        }
    }
    Ok(())
}
