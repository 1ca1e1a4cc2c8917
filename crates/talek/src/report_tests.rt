use crate::testing::{ONE_TEXT, REPORT, joined, run_serially};
use std::test::Fail;
use tk_cli::{Status, honest_serial_runs};

/// The front of a script of two clients, one log and two turns, up to what is said.
const FRONT: &[u8] = b"talek 1
shape 2 8 4 4 24 64 1 0 2 2 1 1
drawn
log 0 1
";

/// A tape of which no dummy opens.
const TAPE: &str = "fill 11 36
fill 12 36
fill 13 36
fill 14 36
fill 21 10
fill 22 10
fill 23 10
fill 24 10
fill 31 36
fill 32 36
";

/// What is said, a tape, and what the report tells of the log and of what is left over.
const SMALL: [(&str, &str, &str, &str); 3] = [
    // both dummies of the first turn open under number 0: the earliest wins
    ("", "fill 00 256\n", "log 0 1 1\ntext 0 \n", "unsent 0 0\n"),
    // the last turn takes one of two texts, too late for a read
    (
        "say 2 1 0 a\nsay 2 1 0 b\n",
        TAPE,
        "log 0 1 0\n",
        "unsent 0 1\n",
    ),
    // the longest text that has room
    (
        "say 1 1 0 abcdef\n",
        TAPE,
        "log 0 1 1\ntext 0 abcdef\n",
        "unsent 0 0\n",
    ),
];

/// The history of a run of two clients and two turns, as a report begins.
const HISTORY: &[u8] = b"report
order 1 1 0 1 mark
reads 1 1 0 0
order 2 1 0 1 mark
reads 2 1 1 1
";

/// Three clients and three logs: one whose writer follows it, and one that nobody follows. The window has two writes of
/// each turn's three, and one text is left over.
pub(crate) const LARGER: &[u8] = b"talek 1
shape 2 8 2 2 24 64 1 0 3 2 2 3
drawn
log 2 0 2
log 1 0
log 0
say 1 1 2 x
say 1 2 0 a
say 1 2 1 b
say 2 1 1 c
say 2 2 0 d
say 2 2 0 e
end
tape
fill 11 432
fill 22 120
fill 31 36
fill 32 36
fill 33 36
fill 34 36
fill 35 36
fill 36 36
fill 37 36
fill 38 36
fill 39 144
end
";

pub(crate) const LARGER_REPORT: &[u8] = b"report
order 1 1 0 1 2
order 1 2 0 1 2 mark
reads 1 2 0 0 0
order 2 1 0 1 2
order 2 2 0 1 2 mark
reads 2 2 1 1 1
log 0 0 1
text 0 a
log 0 2 1
text 0 a
log 1 0 1
text 0 b
unsent 0 0
unsent 1 0
unsent 2 1
end
";

/// A script of which every write wants one bucket of one slot, where five are retained.
pub(crate) const ONE_BUCKET: &[u8] = b"talek 1
shape 4 64 1 5 32 64 2 0 3 4 1 1
drawn
log 1 2
end
tape
fill 00 1440
end
";

pub(crate) const ONE_BUCKET_REPORT: &[u8] = b"report
order 1 1 0 1 2 mark
reads 1 1 0 0 0
order 2 1 0 1 2 mark
reads 2 1 1 1 1
order 3 1 0 1 2 mark
reads 3 1 2 2 2
order 4 1 0 1 2 mark
reads 4 1 3 3 3
log 0 2 3
text 0 
text 1 
text 2 
unsent 0 0
unsent 1 0
unsent 2 0
end
";

/// A keyed script of two clients that both follow one log, and say nothing.
const KEYED: &[u8] = b"talek 1
shape 8 1024 1 1 24 64 2 0 2 2 2 1
keyed
log 1 0 1
handle e3a637c30e59b7b420cfdb25fe79b0ab5122befab04c5d6622f8c1475e9b1dcfa59831c867e13722b288885d351f6fc417078f6f5473348c7e0405cb37a48f5ecbde976d0a3a2682509fa5d06b91d9df36cfe45254c5402957c6a6f5312852400ce8eacaa9e06916
seed 7c81120cb978f72480902a2b4a0d5afdfeac82ff6b495cd916561a3d75ba307e
seed 1a18c3bf516760312a0ada0350b38a1448a4b38c5029c49ff49b6965d716b2b4
end
";

const KEYED_REPORT: &[u8] = b"report
order 1 1 0 1
order 1 2 0 1 mark
reads 1 2 0 0
order 2 1 0 1
order 2 2 0 1 mark
reads 2 2 1 1
log 0 0 0
log 0 1 0
unsent 0 0
unsent 1 0
end
";

/// A keyed script with a text, over three servers.
const KEYED_TEXT: &[u8] = b"talek 1
shape 3 16 2 2 24 64 2 0 2 2 1 1
keyed
log 1 0
handle e3a637c30e59b7b420cfdb25fe79b0ab5122befab04c5d6622f8c1475e9b1dcfa59831c867e13722b288885d351f6fc417078f6f5473348c7e0405cb37a48f5ecbde976d0a3a2682509fa5d06b91d9df36cfe45254c5402957c6a6f5312852400ce8eacaa9e06916
seed 7c81120cb978f72480902a2b4a0d5afdfeac82ff6b495cd916561a3d75ba307e
seed 1a18c3bf516760312a0ada0350b38a1448a4b38c5029c49ff49b6965d716b2b4
say 1 1 0 n\xc3\xa9
end
";

const KEYED_TEXT_REPORT: &[u8] = b"report
order 1 1 0 1 mark
reads 1 1 0 0
order 2 1 0 1 mark
reads 2 1 1 1
log 0 0 1
text 0 n\xc3\xa9
unsent 0 0
unsent 1 0
end
";

/// Three texts of one phase, of whose writes only the last is retained.
const ONE_RETAINED: &[u8] = b"talek 1
shape 2 8 1 1 24 64 1 4 2 2 3 1
drawn
log 1 0
say 1 1 0 a
say 1 1 0 b
say 1 1 0 c
end
tape
fill 11 432
fill 21 120
fill 30 36
fill 31 36
fill 32 36
fill 33 36
fill 34 36
fill 35 36
end
";

const ONE_RETAINED_REPORT: &[u8] = b"report
order 1 1 0 1
order 1 2 0 1
order 1 3 0 1 mark
reads 1 3 0 0
order 2 1 0 1
order 2 2 0 1
order 2 3 0 1 mark
reads 2 3 1 1
log 0 0 3
absent 0
absent 1
text 2 c
unsent 0 0
unsent 1 0
end
";

/// A dummy has the filter's position of a text that is said a phase later.
const SHOWN_TOO_SOON: &[u8] = b"talek 1
shape 2 8 4 4 24 64 1 1 2 3 1 1
drawn
log 0 1
say 2 1 0 hi
end
tape
fill 71 36
fill 12 180
fill 21 60
fill 31 36
fill 32 36
fill 33 36
end
";

const SHOWN_TOO_SOON_REPORT: &[u8] = b"report
order 1 1 0 1 mark
reads 1 1 0 0
order 2 1 0 1 mark
reads 2 1 1 1
order 3 1 0 1 mark
reads 3 1 2 2
log 0 1 1
text 0 hi
unsent 0 0
unsent 1 0
end
";

/// A dummy takes the one slot that the first text of log 0 could have. The filter shows that text
/// all the same, so a read is spent on it.
const DISPLACED_TEXT: &[u8] = b"talek 1
shape 2 16 1 15 24 64 1 2 3 2 5 2
drawn
log 1 0
log 2 0
say 1 1 0 a
say 1 1 1 x
say 1 2 0 b
say 1 2 1 y
say 1 3 0 c
say 1 3 1 z
say 1 4 0 d
end
tape
fill 21 108
fill 28 972
fill 29 360
fill 31 36
fill 32 36
fill 33 36
fill 34 36
fill 38 216
fill 35 36
fill 36 36
fill 37 36
fill 39 252
end
";

const DISPLACED_TEXT_REPORT: &[u8] = b"report
order 1 1 0 1 2
order 1 2 0 1 2
order 1 3 0 1 2
order 1 4 0 1 2
order 1 5 0 1 2 mark
reads 1 5 0 0 0
order 2 1 0 1 2
order 2 2 0 1 2
order 2 3 0 1 2
order 2 4 0 1 2
order 2 5 0 1 2 mark
reads 2 5 1 1 1
log 0 0 3
absent 0
text 1 b
text 2 c
log 1 0 2
text 0 x
text 1 y
unsent 0 0
unsent 1 0
unsent 2 0
end
";

/// When a reader looks, the eighth text of log 0 and the ninth of log 1 are retained, and no
/// others. The ninth is out of reach. The last two texts of log 0 are never sent.
const EIGHT_AHEAD: &[u8] = b"talek 1
shape 2 8 4 3 24 64 1 8 3 2 9 2
drawn
log 1 0
log 2 0
say 1 1 1 a
say 1 1 1 b
say 1 1 1 c
say 1 1 1 d
say 1 1 1 e
say 1 1 1 f
say 1 1 1 g
say 1 1 1 h
say 1 1 1 i
say 1 2 0 a
say 1 2 0 b
say 1 2 0 c
say 1 2 0 d
say 1 2 0 e
say 1 2 0 f
say 1 2 0 g
say 1 2 0 h
say 2 9 0 i
say 2 9 0 j
say 2 9 0 k
end
tape
fill 11 1944
fill 21 540
fill 30 252
fill 37 36
fill 31 360
fill 32 288
fill 38 36
fill 33 324
end
";

const EIGHT_AHEAD_REPORT: &[u8] = b"report
order 1 1 0 1 2
order 1 2 0 1 2
order 1 3 0 1 2
order 1 4 0 1 2
order 1 5 0 1 2
order 1 6 0 1 2
order 1 7 0 1 2
order 1 8 0 1 2
order 1 9 0 1 2 mark
reads 1 9 0 0 0
order 2 1 0 1 2
order 2 2 0 1 2
order 2 3 0 1 2
order 2 4 0 1 2
order 2 5 0 1 2
order 2 6 0 1 2
order 2 7 0 1 2
order 2 8 0 1 2
order 2 9 0 1 2 mark
reads 2 9 1 1 1
log 0 0 8
absent 0
absent 1
absent 2
absent 3
absent 4
absent 5
absent 6
text 7 h
log 1 0 0
unsent 0 0
unsent 1 2
unsent 2 0
end
";

/// In the second phase a dummy shows log 0's text, and a reader asks for it in vain. In that phase
/// it isn't asked for again, so log 1 gets two reads; in the third phase it is.
const ASKED_ANEW: &[u8] = b"talek 1
shape 2 8 4 6 24 64 1 1 2 3 3 2
drawn
log 1 0
log 1 0
say 1 1 1 x
say 1 1 1 y
say 2 1 0 hi
end
tape
fill 71 36
fill 12 612
fill 21 180
fill 31 36
fill 32 288
fill 33 36
fill 34 36
fill 35 252
end
";

const ASKED_ANEW_REPORT: &[u8] = b"report
order 1 1 0 1
order 1 2 0 1
order 1 3 0 1 mark
reads 1 3 0 0
order 2 1 0 1
order 2 2 0 1
order 2 3 0 1 mark
reads 2 3 1 1
order 3 1 0 1
order 3 2 0 1
order 3 3 0 1 mark
reads 3 3 2 2
log 0 0 1
text 0 hi
log 1 0 2
text 0 x
text 1 y
unsent 0 0
unsent 1 0
end
";

#[test]
fn reports(rt: HostRuntime) -> Result<(), Fail> {
    let alloc = rt.alloc();
    for (name, input, report) in [
        ("one text", ONE_TEXT, REPORT),
        ("three logs", LARGER, LARGER_REPORT),
        ("displaced and expired", ONE_BUCKET, ONE_BUCKET_REPORT),
        ("keyed, nothing said", KEYED, KEYED_REPORT),
        ("keyed, three servers", KEYED_TEXT, KEYED_TEXT_REPORT),
        ("passing over", ONE_RETAINED, ONE_RETAINED_REPORT),
        ("false positive", SHOWN_TOO_SOON, SHOWN_TOO_SOON_REPORT),
        ("displaced and shown", DISPLACED_TEXT, DISPLACED_TEXT_REPORT),
        ("eight ahead", EIGHT_AHEAD, EIGHT_AHEAD_REPORT),
        ("asked anew", ASKED_ANEW, ASKED_ANEW_REPORT),
    ] {
        let (status, written) = run_serially(&rt, input)?;
        assert!(rt; status == Status::Done, "at {name}");
        assert!(rt; written.as_slice() == report, "at {name}");
    }
    honest_serial_runs();
    for (says, tape, log, unsent) in SMALL {
        let (says, tape) = (says.as_bytes(), tape.as_bytes());
        let (log, unsent) = (log.as_bytes(), unsent.as_bytes());
        let input = joined(alloc, &[FRONT, says, b"end\ntape\n", tape, b"end\n"])?;
        let report = joined(alloc, &[HISTORY, log, unsent, b"unsent 1 0\nend\n"])?;
        let (status, written) = run_serially(&rt, input.as_slice())?;
        assert!(rt; status == Status::Done);
        assert!(rt; written == report);
    }
    Ok(())
}
