use crate::inputs::read;
use std::alloc::Global;
use std::test::Fail;
use tk_report::{displaced, parse_history};
use tk_shape::Memory;
use tk_words::DrawnDraws;

/// What a script of two clients has after the size of its table, over two phases of one tick: one
/// text.
const SAID: &str = " 24 64 1 0 2 2 1 1
drawn
log 0 1
say 1 1 0 hi
end
";

/// A tape by which each write has the one bucket 1, the text's among them.
const ONE_BUCKET: &str = "tape
fill 11 36
fill 11 36
fill 11 36
fill 11 36
fill 21 40
fill 31 36
fill 32 36
end
";

/// A tape by which the first client writes to bucket 1 and the second to bucket 2.
const TWO_BUCKETS: &str = "tape
fill 11 36
fill 12 36
fill 11 36
fill 12 36
fill 21 40
fill 31 36
fill 32 36
end
";

/// Histories in which the second turn has the order of the first, or the other one.
const SAME_ORDER: &[u8] = b"report
order 1 1 0 1 mark
reads 1 1 1 1
order 2 1 0 1 mark
reads 2 1 2 2
log 0 1 0
";

const OTHER_ORDER: &[u8] = b"report
order 1 1 0 mark 1
reads 1 1 0 0
order 2 1 1 0 mark
reads 2 1 2 2
log 0 1 0
";

/// How many slots a bucket has and how many writes are retained; tapes, histories, and how many
/// writes are displaced.
const COUNTED: [(&str, &str, &[u8], u32); 8] = [
    // a bucket of one slot: the first write stays, and the three others find no place
    ("1 8", ONE_BUCKET, SAME_ORDER, 3),
    ("1 8", ONE_BUCKET, OTHER_ORDER, 3),
    // of two slots, of three and of four
    ("2 8", ONE_BUCKET, SAME_ORDER, 2),
    ("3 8", ONE_BUCKET, SAME_ORDER, 1),
    ("4 8", ONE_BUCKET, SAME_ORDER, 0),
    // one slot, and the first write leaves before the third comes
    ("1 2", ONE_BUCKET, SAME_ORDER, 2),
    // each write finds a place where its client's last one has left; where that is still there, one
    // doesn't
    ("1 2", TWO_BUCKETS, SAME_ORDER, 0),
    ("1 2", TWO_BUCKETS, OTHER_ORDER, 1),
];

/// The text of an input whose table is of this size, and of this tape.
fn input_of(alloc: Global, size: &str, tape: &str) -> Result<Vec<u8>, Memory> {
    let mut text = Vec::new(alloc);
    text.extend_from_slice(b"talek 1\nshape 2 8 ")?;
    text.extend_from_slice(size.as_bytes())?;
    text.extend_from_slice(SAID.as_bytes())?;
    text.extend_from_slice(tape.as_bytes())?;
    Ok(text)
}

/// How many writes of an input are displaced, where its history is the one that a text shows.
fn count(alloc: Global, input: &[u8], shown: &[u8]) -> Result<u32, Fail> {
    let (script, tape) = read(alloc, input)?;
    let history = parse_history(alloc, &script.shape, shown)
        .ok()
        .ok_or("a history")?;
    let draws = DrawnDraws::new(&script.shape, tape);
    Ok(displaced(alloc, &script, &draws, &history)?)
}

#[test]
fn displaced_writes_are_counted(rt: HostRuntime) -> Result<(), Fail> {
    let alloc = rt.alloc();
    for (size, tape, shown, wanted) in COUNTED {
        let input = input_of(alloc, size, tape)?;
        assert!(rt; count(alloc, input.as_slice(), shown)? == wanted);
    }
    Ok(())
}
