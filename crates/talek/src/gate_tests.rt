//! Runs with threads, by gates that hold one who acts until another has passed.
use crate::testing::{ONE_TEXT, words_of};
use std::sync::Wait;
use std::sync::atomic::Ordering::SeqCst;
use std::sync::atomic::{AtomicBool, AtomicU64};
use std::test::Fail;
use std::thread::{Threads, yield_now};
use tk_cli::{Status, talek};
use tk_io::{Gate, MemSink, MemSource, NoTaps};
use tk_shape::Memory;

/// A gate that holds an actor at step 0 until another one has passed step 1, and notes who came.
#[derive(Drop)]
struct Holding {
    held: u32,
    until: u32,
    passed: AtomicBool,
    gave_up: AtomicBool,
    /// A bit for each of three actors at each of four steps.
    came: AtomicU64,
}

impl Holding {
    fn new(held: u32, until: u32) -> Holding {
        Holding {
            held,
            until,
            passed: AtomicBool::new(false),
            gave_up: AtomicBool::new(false),
            came: AtomicU64::new(0),
        }
    }

    /// Waits, but not for ever.
    fn hold(&self) {
        for _ in 0..10_000_000 {
            if self.passed.load(SeqCst) {
                return;
            }
            yield_now();
        }
        self.gave_up.store(true, SeqCst);
    }
}

impl Gate for Holding {
    fn at<R: Threads + Wait + Sync>(&self, _rt: &R, actor: u32, step: u32) {
        if actor < 3 && step < 4 {
            self.came.fetch_or(1u64 << (4 * actor + step), SeqCst);
        }
        if actor == self.until && step == 1 {
            self.passed.store(true, SeqCst);
        }
        if actor == self.held && step == 0 {
            self.hold();
        }
    }
}

/// Who is held, until who has passed, and which word of the first turn's order then comes before
/// which.
const GATES: [(u32, u32, &[u8], &[u8]); 3] = [
    (0, 1, b"1", b"0"),
    (0, 2, b"mark", b"0"),
    (1, 0, b"0", b"1"),
];

/// The place of a word in the line of a report that begins so, after its phase and tick.
fn place_of(report: &[u8], start: &[u8], word: &[u8]) -> Option<usize> {
    let line = report
        .split(|byte| *byte == b'\n')
        .find(|line| line.starts_with(start))?;
    line.split(|byte| *byte == b' ')
        .skip(3)
        .position(|other| other == word)
}

/// How a run of one text ends with a gate, and what it writes.
fn ran<R: AllocGlobal + Threads + Wait + Sync>(
    rt: &R,
    gate: &Holding,
) -> Result<(Status, Vec<u8>), Memory> {
    let alloc = rt.alloc();
    let words = words_of(alloc, &["run"])?;
    let mut source = MemSource::new(ONE_TEXT.to_vec(alloc)?, 4096, Vec::new(alloc));
    let mut sink = MemSink::new(alloc, 4096, Vec::new(alloc));
    let ended = talek(
        rt,
        words.as_slice(),
        &mut source,
        &mut sink,
        &mut NoTaps,
        gate,
    );
    Ok((ended.status, sink.bytes().to_vec(alloc)?))
}

/// Whether the line has both words, the first of them before the other.
fn is_before(report: &[u8], start: &[u8], first: &[u8], second: &[u8]) -> bool {
    match (
        place_of(report, start, first),
        place_of(report, start, second),
    ) {
        (Some(one), Some(other)) => one < other,
        _ => false,
    }
}

#[test]
fn three_gates(rt: HostRuntime) -> Result<(), Fail> {
    for (held, until, first, second) in GATES {
        let gate = Holding::new(held, until);
        let (status, written) = ran(&rt, &gate)?;
        assert!(rt; status == Status::Done);
        assert!(rt; !gate.gave_up.load(SeqCst));
        assert!(rt; gate.came.load(SeqCst) == 0xfff);
        let report = written.as_slice();
        assert!(rt; is_before(report, b"order 1 1 ", first, second));
        if until == 2 {
            assert!(rt; place_of(report, b"reads 1 1 ", b"1") == Some(0));
        }
    }
    Ok(())
}
