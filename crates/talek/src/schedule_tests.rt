use crate::testing::{ONE_TEXT, retold, words_of};
use std::alloc::Global;
use std::process::Abort;
use std::sync::Wait;
use std::sync::atomic::AtomicU64;
use std::sync::atomic::Ordering::SeqCst;
use std::test::Fail;
use std::thread::{Threads, yield_now};
use tk_cli::{Status, talek};
use tk_io::{Gate, MemSink, MemSource, NoTaps};
use tk_script::{Form, Input, parse};
use tk_shape::Memory;
use tk_words::Book;

/// A drawn script of five clients and two logs over three servers, in two phases of two ticks, with
/// readers that read ahead, and its tape.
const FIVE_CLIENTS: &[u8] = b"talek 1
shape 3 8 4 12 24 128 1 1 5 2 2 2
drawn
log 0 1 2 3
log 4 0 3
say 1 1 0 hi
say 1 1 1 ho
say 1 2 0 yes
say 2 1 1 no
end
tape
fill 11 240
fill 12 240
fill 14 240
fill 21 240
fill 30 36
fill 35 36
fill 3a 36
fill 3f 36
fill 44 36
fill 49 36
fill 4e 36
fill 53 36
end
";

/// A keyed script of three clients and two logs over four servers, in three phases of one tick.
const THREE_CLIENTS: &[u8] = b"talek 1
shape 4 16 2 8 32 256 2 0 3 3 1 2
keyed
log 0 1 2
log 2 0
handle 80986d4b0959d40f88ea1eedbfbf809cca05019a80e48fa7f57c70464d2c0e0b826096a59fb6d627f352dd479493936635460f86786899636bd34cd460617d077d1a0af18f26751f07f4e133e6e035028e3103587f02d80a57ddfd134bc89e750b4554b8e131ed98
handle 4b4dee53582ad406f8effa66c944793a5be0a88f5dede4035d3a50da73258be13be4074eca5a274ef131e8726ad05cbc68a7e6cde7b6e0f857ac2bab5c4474558a1b8aebb736035d4d410f91257ab72c96f98ca0e9e053d52042f4adbde882be4cf4f96b2d2d3247
seed 03cac611859b059dcc058bd627f01db804bf0e54680bdfc152d5b092c3f7334a
seed 3b59461eccca2178aaf2ab567c9fc082a2ae8b8dab45cc909cd20ab29cffaaca
seed f59e578cad668ed4f4bd59749f9a74f93f1adeb9a4d618aa09fbcff2cc7fa8b4
say 1 1 0 hi
say 1 1 1 ho
say 2 1 0 yes
say 2 1 1 no
end
";

/// A gate that holds each actor at each step for a number of turns that a seed gives, and counts
/// those who came.
#[derive(Drop)]
struct Spinning {
    seed: u64,
    turned: AtomicU64,
    came: AtomicU64,
}

impl Spinning {
    fn new(seed: u64) -> Spinning {
        Spinning {
            seed,
            turned: AtomicU64::new(0),
            came: AtomicU64::new(0),
        }
    }

    /// The seed, the actor and the step, mixed.
    fn mixed(&self, actor: u32, step: u32) -> u64 {
        let place = (u64::from(actor) << 32) | u64::from(step);
        let mut mixed = self.seed.wrapping_mul(0x9e3779b97f4a7c15) ^ place;
        for factor in [0xbf58476d1ce4e5b9, 0x94d049bb133111eb, 0x9e3779b97f4a7c15] {
            mixed = (mixed ^ (mixed >> 29)).wrapping_mul(factor);
        }
        mixed ^ (mixed >> 32)
    }
}

impl Gate for Spinning {
    fn at<R: Threads + Wait + Sync>(&self, _rt: &R, actor: u32, step: u32) {
        self.came.fetch_add(1, SeqCst);
        let mixed = self.mixed(actor, step);
        for _ in 0..mixed % TURNS {
            self.turned.fetch_add(1, SeqCst);
        }
        if mixed & 0x10000 != 0 {
            yield_now();
        }
    }
}

/// Each is held for fewer turns than these.
const TURNS: u64 = 256;

/// How a run ends with a gate, and what it writes.
fn ran<R: AllocGlobal + Threads + Wait + Sync>(
    rt: &R,
    words: &[&str],
    input: &[u8],
    gate: &Spinning,
) -> Result<(Status, Vec<u8>), Memory> {
    let alloc = rt.alloc();
    let words = words_of(alloc, words)?;
    let mut source = MemSource::new(input.to_vec(alloc)?, 4096, Vec::new(alloc));
    let mut sink = MemSink::new(alloc, 4096, Vec::new(alloc));
    let ended = talek(
        rt,
        words.as_slice(),
        &mut source,
        &mut sink,
        &mut NoTaps,
        gate,
    );
    Ok((ended.status, sink.bytes().to_vec(alloc)?))
}

/// The report of an input's run with the history that a report tells.
fn retold_of(alloc: Global, input: &[u8], text: &[u8]) -> Result<Vec<u8>, Fail> {
    let Ok(
        Input {
            first: script,
            tape,
            ..
        },
    ) = parse(alloc, input, Form::Run)
    else {
        return Err(Fail::from("a script"));
    };
    match script.book(alloc, tape) {
        Ok(Book::Drawn(draws)) => retold(alloc, &script, &draws, text),
        Ok(Book::Keyed(draws)) => retold(alloc, &script, &draws, text),
        Err(_) => Err(Fail::from("a book")),
    }
}

/// How many runs each group has.
const RUNS: u64 = 200;

/// Runs a group's input with a schedule for each seed. Its clients and its publisher come to the gate
/// so often, in each turn twice.
fn run_by_seeds<R: AllocGlobal + Threads + Wait + Sync + Abort>(
    rt: &R,
    words: &[&str],
    input: &[u8],
    came: u64,
) -> Result<(), Fail> {
    let alloc = rt.alloc();
    for seed in 0..RUNS {
        let gate = Spinning::new(seed);
        let (status, written) = ran(rt, words, input, &gate)?;
        assert!(rt; status == Status::Done, "with seed {seed}");
        assert!(rt; gate.came.load(SeqCst) == came, "with seed {seed}");
        let told = retold_of(alloc, input, written.as_slice())?;
        assert!(rt; written == told, "with seed {seed}");
    }
    Ok(())
}

#[test]
fn two_clients_by_seeds(rt: HostRuntime) -> Result<(), Fail> {
    run_by_seeds(&rt, &["run"], ONE_TEXT, 12)
}

#[test]
fn three_clients_by_seeds(rt: HostRuntime) -> Result<(), Fail> {
    run_by_seeds(&rt, &["run", "2"], THREE_CLIENTS, 24)
}

#[test]
fn five_clients_by_seeds(rt: HostRuntime) -> Result<(), Fail> {
    run_by_seeds(&rt, &["run"], FIVE_CLIENTS, 48)
}
