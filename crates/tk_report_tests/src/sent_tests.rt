use crate::inputs::read;
use std::test::Fail;
use tk_report::all_sent;

/// Three texts of a client that may write in two turns: the first is said for the first turn, the
/// second for the same, so that it waits, and the third comes too late.
const THREE_TEXTS: &[u8] = b"talek 1
shape 2 8 4 8 24 64 1 0 2 2 1 1
drawn
log 0 1
say 1 1 0 hi
say 1 1 0 ho
say 2 1 0 he
end
tape
fill 11 256
end
";

#[test]
fn texts_are_sent_in_free_turns(rt: HostRuntime) -> Result<(), Fail> {
    let alloc = rt.alloc();
    let (script, _tape) = read(alloc, THREE_TEXTS)?;
    let sent = all_sent(alloc, &script)?;
    assert!(rt; sent.len() == 2);
    assert!(rt; sent[0].as_slice().len() == 2 && sent[1].as_slice().is_empty());
    for (turn, text) in [(0, b"hi".as_slice()), (1, b"ho".as_slice())] {
        let found = sent[0].in_turn(turn).ok_or("a text")?;
        assert!(rt; found.turn == turn && found.log == 0 && found.number == turn);
        assert!(rt; found.text.as_slice() == text);
        assert!(rt; sent[1].in_turn(turn).is_none());
    }
    Ok(())
}
