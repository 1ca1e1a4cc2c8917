use std::test::Fail;
use tk_client::Client;
use tk_io::MemTaps;
use tk_report::{parse_history, print_outcome, report};
use tk_run::{RunError, serial};
use tk_script::{Form, Input, parse};
use tk_words::Book;

/// A script of two clients with one text, over two phases of one tick, and its tape.
const ONE_TEXT: &[u8] = b"talek 1
shape 2 8 4 4 24 64 1 0 2 2 1 1
drawn
log 0 1
say 1 1 0 hi
end
tape
fill 11 36
fill 12 36
fill 13 36
fill 14 36
fill 21 10
fill 22 10
fill 23 10
fill 24 10
fill 31 36
fill 32 36
end
";

/// The taps' call that fails, 0 for none; and then what the run ends with, how many numbers the
/// second client has got, and how many bytes each of two taps has.
const RUNS: [(u32, Option<RunError>, usize, (usize, usize)); 3] = [
    (0, None, 1, (1644, 1644)),
    (1, Some(RunError::Taps), 0, (0, 0)),
    (4, Some(RunError::Taps), 0, (1644, 822)),
];

/// How many numbers of the first log the last client has got.
fn numbers_of(clients: &[Client]) -> usize {
    match clients.last() {
        Some(client) => client.log(0).len(),
        None => 0,
    }
}

#[test]
fn runs_and_their_taps(rt: HostRuntime) -> Result<(), Fail> {
    let alloc = rt.alloc();
    for (call, ended, numbers, (first, second)) in RUNS {
        let Ok(
            Input {
                first: script,
                tape,
                ..
            },
        ) = parse(alloc, ONE_TEXT, Form::Run)
        else {
            return Err(Fail::from("a script"));
        };
        let Ok(Book::Drawn(draws)) = script.book(alloc, tape) else {
            return Err(Fail::from("a book"));
        };
        let mut taps = MemTaps::new(alloc, 2, vec![in alloc; call]?)?;
        let (error, got) = match serial(alloc, &script, &draws, &mut taps) {
            Ok(outcome) => (None, numbers_of(outcome.clients.as_slice())),
            Err(error) => (Some(error), 0),
        };
        assert!(rt; error == ended);
        assert!(rt; got == numbers);
        assert!(rt; (taps.bytes(1).len(), taps.bytes(2).len()) == (first, second));
    }
    Ok(())
}

/// A script of twelve clients and two logs, over two phases of one tick, with readers that read
/// ahead, and its tape.
const TWELVE_CLIENTS: &[u8] = b"talek 1
shape 2 16 8 64 24 256 1 2 12 2 1 2
drawn
log 0 1 2 3
log 5 0 11
say 1 1 0 hi
say 1 1 1 ho
say 2 1 0 yes
end
tape
fill 11 864
fill 21 288
fill 31 36
fill 32 36
fill 33 36
fill 34 36
end
";

/// The two scripts, and how many texts the reports of their serial runs have.
const REPORTED: [(&[u8], usize); 2] = [(ONE_TEXT, 1), (TWELVE_CLIENTS, 5)];

/// How many lines of a report are texts.
fn texts_in(report: &[u8]) -> usize {
    report
        .split(|byte| *byte == b'\n')
        .filter(|line| line.starts_with(b"text"))
        .count()
}

#[test]
fn reports_of_serial_histories(rt: HostRuntime) -> Result<(), Fail> {
    let alloc = rt.alloc();
    for (text, texts) in REPORTED {
        let Ok(
            Input {
                first: script,
                tape,
                ..
            },
        ) = parse(alloc, text, Form::Run)
        else {
            return Err(Fail::from("a script"));
        };
        let Ok(Book::Drawn(draws)) = script.book(alloc, tape) else {
            return Err(Fail::from("a book"));
        };
        let mut taps = MemTaps::new(alloc, 2, vec![in alloc; 0]?)?;
        let Ok(outcome) = serial(alloc, &script, &draws, &mut taps) else {
            return Err(Fail::from("a run"));
        };
        let mut printed = Vec::new(alloc);
        print_outcome(alloc, &outcome, &mut printed)?;
        let Ok(history) = parse_history(alloc, &script.shape, printed.as_slice()) else {
            return Err(Fail::from("a history"));
        };
        let mut told = Vec::new(alloc);
        report(alloc, &script, &draws, &history, &mut told)?;
        assert!(rt; told == printed);
        assert!(rt; texts_in(told.as_slice()) == texts);
    }
    Ok(())
}
