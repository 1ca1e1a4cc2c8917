use crate::testing::tried;
use crate::view_tests::{MIRRORED, OTHERS, TAPE, lines_from};
use std::alloc::AllocError;
use std::test::Fail;
use tk_cli::Status;
use tk_script::Cause;

/// Two scripts in which nobody says anything. In the second client 1 follows no log, so that its
/// reads are dummies.
const SILENT: &str = "talek 1
shape 2 8 1 4 24 64 1 0 2 1 2 1
drawn
log 0 1
end
talek 1
shape 2 8 1 4 24 64 1 0 2 1 2 1
drawn
log 0
end
history
order 1 1 0 1
order 1 2 0 1 mark
reads 1 2 0 0
end
replies
";

/// A bucket that opens as number 0 of log 0, with the text `hi`, and an empty one.
const HI: &str = "00000000000000090000000100000001313359583131313131313131313131313131313131313131\
                  00000000000000000000000000000000000000000000000000000000000000000000000000000000\n";

const TAPE_OF_SILENT: &str = "end
tape
fill 12 144
fill 22 40
fill 31 36
fill 35 36
end
";

/// The words of server 1 for client 1 in the second turn: those of a reader who looks for number 0
/// twice, and of one who goes on to number 1.
const STAYS: &str = "x 2222242422222222222222222222222222222222222224243131313131313131\n";

const GOES_ON: &str = "x 2222242422222222222222222222222222222222222206063131313131313131\n";

/// An input with these front parts of lines of replies, each with the same two sums.
fn with_replies(rt: &HostRuntime, replies: &[&str]) -> Result<Vec<u8>, AllocError> {
    let mut input = Vec::from_slice(rt.alloc(), SILENT.as_bytes())?;
    for reply in replies {
        input.extend_from_slice(reply.as_bytes())?;
        input.extend_from_slice(HI.as_bytes())?;
    }
    input.extend_from_slice(TAPE_OF_SILENT.as_bytes())?;
    Ok(input)
}

#[test]
fn no_wrong_replies(rt: HostRuntime) -> Result<(), Fail> {
    let alloc = rt.alloc();
    let mut input = lines_from(alloc, MIRRORED, 1, 15)?;
    input.extend_from_slice(b"replies\nend\n")?;
    input.extend_from_slice(&lines_from(alloc, MIRRORED, 16, 22)?)?;
    let (end, written) = tried(&rt, &["wrong", "1"], &input)?;
    assert!(rt; end == (Status::Done, 0, 0));
    assert!(rt; written.as_slice() == OTHERS[0].as_bytes());
    // mirrored back it is the first tape
    let mut back = lines_from(alloc, MIRRORED, 7, 11)?;
    back.extend_from_slice(&lines_from(alloc, MIRRORED, 1, 6)?)?;
    back.extend_from_slice(&lines_from(alloc, MIRRORED, 12, 15)?)?;
    back.extend_from_slice(b"replies\nend\n")?;
    back.extend_from_slice(OTHERS[0].as_bytes())?;
    let (end, written) = tried(&rt, &["wrong", "1"], &back)?;
    assert!(rt; end == (Status::Done, 0, 0));
    assert!(rt; written.as_slice() == TAPE.as_bytes());
    Ok(())
}

#[test]
fn reader_goes_on_from_a_lie(rt: HostRuntime) -> Result<(), Fail> {
    for (replies, line) in [
        ([].as_slice(), STAYS),
        (&["reply 0 1 2 "], GOES_ON),
        // the hidden server's line is read, and not used
        (&["reply 0 1 1 "], STAYS),
        (&["reply 0 1 1 ", "reply 0 1 2 "], GOES_ON),
        // too late for the second read
        (&["reply 1 1 2 "], STAYS),
    ] {
        let input = with_replies(&rt, replies)?;
        let (end, written) = tried(&rt, &["wrong", "1"], &input)?;
        assert!(rt; end == (Status::Done, 0, 0));
        let seventh = lines_from(rt.alloc(), &written, 7, 7)?;
        assert!(rt; seventh.as_slice() == line.as_bytes());
    }
    Ok(())
}

fn at_line(line: u64, cause: Cause) -> Status {
    Status::Script { line, cause }
}

#[test]
fn refused_replies(rt: HostRuntime) -> Result<(), Fail> {
    let repeated = ["reply 0 1 2 ", "reply 0 1 2 "];
    for (replies, refusal) in [
        (
            ["reply 2 0 1 "].as_slice(),
            at_line(17, Cause::Number { value: 2 }),
        ),
        (&repeated, at_line(18, Cause::Order)),
        (&["reply 0 1 2 0"], at_line(17, Cause::Form)),
        (&["reply 0 1 2 "], Status::Hidden { got: 3, servers: 2 }),
    ] {
        let input = with_replies(&rt, replies)?;
        let (end, written) = tried(&rt, &["wrong", "3"], &input)?;
        assert!(rt; end == (refusal, 0, 0));
        assert!(rt; written.is_empty());
    }
    Ok(())
}
