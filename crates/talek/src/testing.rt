//! What the tests share: inputs, the objects that a call is given, and how it ends with them.
ghost use Rattle.std.specs.Prelude.{◌≡◌};

use std::alloc::{AllocError, Global};
use std::sync::Wait;
use std::test::Fail;
use std::thread::Threads;
use tk_cli::{Status, talek};
use tk_io::{MemSink, MemSource, MemTaps, OpenGate};
use tk_report::{parse_history, report};
use tk_script::Script;
use tk_shape::{Bytes, Memory};
use tk_words::Draws;

/// A script of two clients with one text, over two phases of one tick, and its tape.
pub(crate) const ONE_TEXT: &[u8] = b"talek 1
shape 2 8 4 4 24 64 1 0 2 2 1 1
drawn
log 0 1
say 1 1 0 hi
end
tape
fill 11 36
fill 12 36
fill 13 36
fill 14 36
fill 21 10
fill 22 10
fill 23 10
fill 24 10
fill 31 36
fill 32 36
end
";

/// The report of its serial run.
pub(crate) const REPORT: &[u8] = b"report
order 1 1 0 1 mark
reads 1 1 0 0
order 2 1 0 1 mark
reads 2 1 1 1
log 0 1 1
text 0 hi
unsent 0 0
unsent 1 0
end
";

/// Runs the words over a text, with a source and a sink that take pieces and fail at chosen calls.
pub(crate) fn run<R: AllocGlobal + Threads + Wait + Sync>(
    rt: &R,
    words: &[&str],
    source: &mut MemSource,
    sink: &mut MemSink,
) -> Result<Status, Memory> {
    let alloc = rt.alloc();
    let mut taps = taps_of(alloc)?;
    run_tapped(rt, words, source, sink, &mut taps)
}

/// The same, with taps that are looked at.
pub(crate) fn run_tapped<R: AllocGlobal + Threads + Wait + Sync>(
    rt: &R,
    words: &[&str],
    source: &mut MemSource,
    sink: &mut MemSink,
    taps: &mut MemTaps,
) -> Result<Status, Memory> {
    let words = words_of(rt.alloc(), words)?;
    Ok(talek(rt, words.as_slice(), source, sink, taps, &OpenGate).status)
}

/// How words end: the status, how much is left of the input, and how much the first tap got.
pub(crate) type End = (Status, usize, usize);

/// How words end over an input, and what is written.
pub(crate) fn tried<R: AllocGlobal + Threads + Wait + Sync>(
    rt: &R,
    words: &[&str],
    input: &[u8],
) -> Result<(End, Vec<u8>), Memory> {
    let alloc = rt.alloc();
    let mut source = source_of(alloc, input)?;
    let mut sink = MemSink::new(alloc, 4096, Vec::new(alloc));
    let mut taps = taps_of(alloc)?;
    let status = run_tapped(rt, words, &mut source, &mut sink, &mut taps)?;
    let end = (status, source.left().len(), taps.bytes(1).len());
    Ok((end, sink.bytes().to_vec(alloc)?))
}

/// Words as their bytes.
pub(crate) fn words_of(alloc: Global, words: &[&str]) -> Result<Vec<Bytes>, Memory> {
    let mut all = Vec::new(alloc);
    for word in words {
        all.push(Bytes::from_slice(alloc, word.as_bytes())?)?;
    }
    Ok(all)
}

/// Eight taps, none of whose calls fails.
pub(crate) fn taps_of(alloc: Global) -> Result<MemTaps, Memory> {
    taps_failing(alloc, 0)
}

/// Eight taps, of whose calls one fails, counted from 1; at 0 none does.
pub(crate) fn taps_failing(alloc: Global, call: u32) -> Result<MemTaps, Memory> {
    let Ok(taps) = MemTaps::new(alloc, 8, vec![in alloc; call]?) else {
        return Err(Memory);
    };
    Ok(taps)
}

pub(crate) fn source_of(alloc: Global, text: &[u8]) -> Result<MemSource, AllocError> {
    Ok(MemSource::new(text.to_vec(alloc)?, 4096, Vec::new(alloc)))
}

/// The status that `serial` ends with over an input, and what it writes.
pub(crate) fn run_serially<R: AllocGlobal + Threads + Wait + Sync>(
    rt: &R,
    input: &[u8],
) -> Result<(Status, Vec<u8>), Memory> {
    let alloc = rt.alloc();
    let mut source = source_of(alloc, input)?;
    let mut sink = MemSink::new(alloc, 4096, Vec::new(alloc));
    let status = run(rt, &["serial"], &mut source, &mut sink)?;
    Ok((status, sink.bytes().to_vec(alloc)?))
}

pub(crate) fn joined(alloc: Global, parts: &[&[u8]]) -> Result<Vec<u8>, AllocError> {
    let mut all = Vec::new(alloc);
    for part in parts {
        all.extend_from_slice(part)?;
    }
    Ok(all)
}

/// The digits of lines, one after the other.
pub(crate) fn digits_of(alloc: Global, lines: &str) -> Result<Vec<u8>, AllocError> {
    let mut digits = Vec::new(alloc);
    for line in lines.as_bytes().split(|byte| *byte == b'\n') {
        digits.extend_from_slice(line)?;
    }
    Ok(digits)
}

/// The report for the history that a report tells.
pub(crate) fn retold<D: Draws>(
    alloc: Global,
    script: &Script,
    draws: &D,
    text: &[u8],
) -> Result<Vec<u8>, Fail>
    requires { D.shape draws.now ≡ script.now.shape }
{
    let Ok(history) = parse_history(alloc, &script.shape, text) else {
        return Err(Fail::from("a history"));
    };
    let mut told = Vec::new(alloc);
    report(alloc, script, draws, &history, &mut told)?;
    Ok(told)
}
