use crate::testing::{ONE_TEXT, retold, taps_of, words_of};
use std::test::Fail;
use tk_cli::{Status, talek};
use tk_io::{MemSink, MemSource, OpenGate};
use tk_report::print_outcome;
use tk_script::{Form, Input, parse};
use tk_words::Book;

// a run with threads writes the report of the history that it writes, and hands back what it left
#[test]
fn run_with_threads(rt: HostRuntime) -> Result<(), Fail> {
    let alloc = rt.alloc();
    let Ok(
        Input {
            first: script,
            tape,
            ..
        },
    ) = parse(alloc, ONE_TEXT, Form::Run)
    else {
        return Err(Fail::from("a script"));
    };
    let Ok(Book::Drawn(draws)) = script.book(alloc, tape) else {
        return Err(Fail::from("drawn words"));
    };
    for words in [
        ["run"].as_slice(),
        &["run", "1"],
        &["run", "2"],
        &["run", "64"],
        &["run", "2", "64"],
        &["run", "1", "8"],
        &["run", "7", "3"],
        &["run", "64", "64"],
    ] {
        let words = words_of(alloc, words)?;
        let mut source = MemSource::new(ONE_TEXT.to_vec(alloc)?, 4096, Vec::new(alloc));
        let mut sink = MemSink::new(alloc, 4096, Vec::new(alloc));
        let mut taps = taps_of(alloc)?;
        let ended = talek(
            &rt,
            words.as_slice(),
            &mut source,
            &mut sink,
            &mut taps,
            &OpenGate,
        );
        assert!(rt; ended.status == Status::Done);
        let told = retold(alloc, &script, &draws, sink.bytes())?;
        assert!(rt; sink.bytes() == told.as_slice());
        let outcome = ended.outcome.ok_or("an outcome")?;
        let mut left = Vec::new(alloc);
        print_outcome(alloc, &outcome, &mut left)?;
        assert!(rt; left.as_slice() == told.as_slice());
        let closed = ended.closed.ok_or("a closed cluster")?;
        assert!(rt; closed.order().as_slice().len() == 6);
        assert!(rt; (taps.bytes(1).len(), taps.bytes(2).len()) == (1644, 1644));
    }
    Ok(())
}
