use crate::testing::{ONE_TEXT, retold, tried};
use std::test::Fail;
use tk_cli::Status;
use tk_make::generate;
use tk_script::print;
use tk_words::Book;

/// How the script of a realistic group begins: three servers, and twelve clients, three to a log.
const GROUP: &[u8] = b"talek 1
shape 3 256 4 512 256 4096 3 4 12 8 4 4
keyed
log 0 1 2
log 3 4 5
log 6 7 8
log 9 10 11
handle 0000000000000000";

/// Two groups' numbers, first texts, and ends.
const MADE: [(&str, &str, &str); 2] = [
    ("0", "say 1 1 0 note 0 1 1", "say 8 4 2 note 2 8 4\nend\n"),
    ("1", "say 1 1 1 note 1 1 1", "say 8 4 3 note 3 8 4\nend\n"),
];

/// The counts of the second.
const COUNTS: &[u8] = b"said 64
sent 64
dummies 320
displaced 0
delivered 112
absent 0
unsent 0
";

#[test]
fn made_groups(rt: HostRuntime) -> Result<(), Fail> {
    for (number, first, last) in MADE {
        let (end, script) = tried(&rt, &["make", number], ONE_TEXT)?;
        assert!(rt; end == (Status::Done, ONE_TEXT.len(), 0));
        assert!(rt; script.starts_with(GROUP));
        assert!(rt; script.ends_with(last.as_bytes()));
        let mut lines = script.as_slice().split(|byte| *byte == b'\n');
        let said = lines
            .find(|line| line.starts_with(b"say "))
            .ok_or("a text")?;
        assert!(rt; said == first.as_bytes());
    }
    Ok(())
}

/// In format 2 a group's keys stay, and so does its report.
#[test]
fn lifted_group(rt: HostRuntime) -> Result<(), Fail> {
    let (_, script) = tried(&rt, &["make", "1"], b"")?;
    let ((status, left, seen), lifted) = tried(&rt, &["lift"], script.as_slice())?;
    assert!(rt; (status, left, seen) == (Status::Done, 0, 0));
    assert!(rt; lifted.starts_with(b"talek 2\n"));
    if script.len() < 8 {
        return Err(Fail::from("a first line"));
    }
    assert!(rt; lifted.ends_with(&script[8..]));
    assert!(rt; lifted.len() == script.len());
    let (_, written) = tried(&rt, &["serial"], script.as_slice())?;
    let ((status, _, _), again) = tried(&rt, &["serial"], lifted.as_slice())?;
    assert!(rt; status == Status::Done);
    assert!(rt; again == written);
    Ok(())
}

#[test]
fn made_group_twice(rt: HostRuntime) -> Result<(), Fail> {
    let (_, script) = tried(&rt, &["make", "1"], b"")?;
    let ((status, left, _), written) = tried(&rt, &["serial"], script.as_slice())?;
    assert!(rt; (status, left) == (Status::Done, 0));
    let ((status, left, _), again) = tried(&rt, &["serial"], script.as_slice())?;
    assert!(rt; (status, left) == (Status::Done, 0));
    assert!(rt; written == again);
    // two texts for each of eight followers in each of seven phases
    let lines = written.as_slice().split(|byte| *byte == b'\n');
    assert!(rt; lines.filter(|line| line.starts_with(b"text ")).count() == 112);
    Ok(())
}

// four workers answer over the whole of a server's buckets, and two over three shards of them
#[test]
fn runs_of_several_workers(rt: HostRuntime) -> Result<(), Fail> {
    let alloc = rt.alloc();
    let script = generate(alloc, 1)?;
    let Ok(Book::Keyed(draws)) = script.book(alloc, None) else {
        return Err(Fail::from("keyed words"));
    };
    let mut text = Vec::new(alloc);
    print(&script, &mut text)?;
    for words in [["run", "4"].as_slice(), &["run", "2", "3"]] {
        let ((status, left, _), written) = tried(&rt, words, text.as_slice())?;
        assert!(rt; (status, left) == (Status::Done, 0));
        let told = retold(alloc, &script, &draws, written.as_slice())?;
        assert!(rt; written == told);
    }
    Ok(())
}

#[test]
fn counts_of_a_made_group(rt: HostRuntime) -> Result<(), Fail> {
    let (end, written) = tried(&rt, &["tally", "1"], ONE_TEXT)?;
    assert!(rt; end == (Status::Done, ONE_TEXT.len(), 0));
    assert!(rt; written.as_slice() == COUNTS);
    Ok(())
}
