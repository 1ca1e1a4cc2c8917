//! A run with threads of twelve clients: its report, and what its taps have beside what servers see.
use crate::testing::{retold, taps_of, words_of};
use std::alloc::{AllocError, Global};
use std::sync::Wait;
use std::test::Fail;
use std::thread::Threads;
use tk_cli::{Status, talek};
use tk_io::{MemSink, MemSource, MemTaps, OpenGate};
use tk_script::{Form, Input, parse};
use tk_shape::Memory;
use tk_words::Book;

/// A script of twelve clients and two logs over eight phases of two ticks, with readers that read
/// ahead.
const SCRIPT: &[u8] = b"talek 1
shape 2 16 8 64 24 256 1 2 12 8 2 2
drawn
log 0 1 2 3
log 5 0 11
say 1 1 0 hi
say 1 1 1 ho
say 2 1 0 yes
say 3 2 1 no
say 5 1 0 so
say 7 2 1 end
end
";

/// Its tape.
const TAPE: &[u8] = b"tape
fill 11 6912
fill 21 2304
fill 30 36
fill 35 36
fill 3a 36
fill 3f 36
fill 44 36
fill 49 36
fill 4e 36
fill 53 36
fill 58 36
fill 5d 36
fill 62 36
fill 67 36
fill 6c 36
fill 71 36
fill 76 36
fill 7b 36
fill 41 36
fill 46 36
fill 4b 36
fill 50 36
fill 55 36
fill 5a 36
fill 5f 36
fill 64 36
fill 69 36
fill 6e 36
fill 73 36
fill 78 36
fill 7d 36
fill 82 36
fill 87 36
fill 8c 36
end
";

/// How many bytes a reply frame has: its head, and two buckets of eight slots.
const REPLY: usize = 14 + 2 * 8 * (16 + 24);

/// What is written for words over an input, once they are done. Taps get what they get.
fn written<R: AllocGlobal + Threads + Wait + Sync>(
    rt: &R,
    words: &[&str],
    input: &[u8],
    taps: &mut MemTaps,
) -> Result<Vec<u8>, Fail> {
    let alloc = rt.alloc();
    let words = words_of(alloc, words)?;
    let mut source = MemSource::new(input.to_vec(alloc)?, 4096, Vec::new(alloc));
    let mut sink = MemSink::new(alloc, 4096, Vec::new(alloc));
    let ended = talek(
        rt,
        words.as_slice(),
        &mut source,
        &mut sink,
        taps,
        &OpenGate,
    );
    if ended.status != Status::Done {
        return Err(Fail::from("an end that is not Done"));
    }
    Ok(sink.bytes().to_vec(alloc)?)
}

/// The script with the history that a report tells, and the tape.
fn viewed(alloc: Global, report: &[u8]) -> Result<Vec<u8>, AllocError> {
    let mut text = SCRIPT.to_vec(alloc)?;
    text.extend_from_slice(b"history\n")?;
    for line in report.split(|byte| *byte == b'\n') {
        if line.starts_with(b"order ") || line.starts_with(b"reads ") {
            text.extend_from_slice(line)?;
            text.push(b'\n')?;
        }
    }
    text.extend_from_slice(b"end\n")?;
    text.extend_from_slice(TAPE)?;
    Ok(text)
}

/// How many frames a tap has, if they are those that a view has in hexadecimal, each read followed by
/// a reply.
fn frames_in(alloc: Global, view: &[u8], tap: &[u8]) -> Result<usize, Fail> {
    let mut count = 0usize;
    let mut rest = tap;
    for line in view
        .split(|byte| *byte == b'\n')
        .filter(|line| !line.is_empty())
    {
        let Ok(frame) = hex::decode(alloc, line.to_vec(alloc)?) else {
            return Err(Fail::from("a line of digits"));
        };
        let is_read = frame.first() == Some(&2);
        let size = if is_read {
            frame.len().saturating_add(REPLY)
        } else {
            frame.len()
        };
        let (Some(behind), true) = (rest.get(size..), rest.starts_with(frame.as_slice())) else {
            return Err(Fail::from("a frame of the view"));
        };
        rest = behind;
        count = count.saturating_add(1);
    }
    if !rest.is_empty() {
        return Err(Fail::from("no more frames"));
    }
    Ok(count)
}

#[test]
fn twelve_clients_at_once(rt: HostRuntime) -> Result<(), Fail> {
    let alloc = rt.alloc();
    let mut text = SCRIPT.to_vec(alloc)?;
    text.extend_from_slice(TAPE)?;
    let input = text.as_slice();
    let Ok(
        Input {
            first: script,
            tape,
            ..
        },
    ) = parse(alloc, input, Form::Run)
    else {
        return Err(Fail::from("a script"));
    };
    let Ok(Book::Drawn(draws)) = script.book(alloc, tape) else {
        return Err(Fail::from("a book"));
    };
    let mut taps = taps_of(alloc)?;
    let report = written(&rt, &["run", "3"], input, &mut taps)?;
    let told = retold(alloc, &script, &draws, report.as_slice())?;
    assert!(rt; report.as_slice() == told.as_slice());
    let history = viewed(alloc, report.as_slice())?;
    for (server, word) in [(1, "1"), (2, "2")] {
        let mut untapped = taps_of(alloc)?;
        let view = written(&rt, &["view", word], history.as_slice(), &mut untapped)?;
        let frames = frames_in(alloc, view.as_slice(), taps.bytes(server))?;
        // sixteen turns of twelve records and as many reads, and eight marks
        assert!(rt; frames == 392);
    }
    Ok(())
}
