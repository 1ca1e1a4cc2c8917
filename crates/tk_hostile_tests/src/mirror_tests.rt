use crate::inputs::{HIDDEN, Input, Liar, liar_of, replies_of};
use std::alloc::Global;
use std::test::Fail;
use tk_hostile::wrong_mirror;
use tk_schedule::History;

/// Whether the mirror of the first script's words, where this server is hidden and that one makes a text up, are those
/// of the second.
fn mirrors_to(
    alloc: Global,
    first: &Input,
    second: &Input,
    hidden: u32,
    liar: Liar,
) -> Result<bool, Fail> {
    let (a, tape) = first.read(alloc)?;
    let (b, there) = second.read(alloc)?;
    let history = History::serial(alloc, &a.shape)?;
    let replies = replies_of(alloc, &a.shape, liar)?;
    let found = wrong_mirror(alloc, &a, &b, &history, hidden, &replies, tape)
        .ok()
        .ok_or("mirrored")?;
    Ok(found.as_bytes() == there.as_bytes())
}

// the text that a server makes up changes what is read next, and so the words; in format 2 the seeds stay
#[test]
fn mirror_read_by_read(rt: HostRuntime) -> Result<(), Fail> {
    let alloc = rt.alloc();
    for format in [1, 2] {
        for (servers, hidden, before, behind) in HIDDEN {
            for number in 0..servers + 1 {
                let (liar, is_used) = liar_of(number, hidden);
                let silent = Input::silent(format, servers);
                let later = if is_used { behind } else { before };
                let speaking = Input::speaking(format, servers, [before, later]);
                let there = mirrors_to(alloc, &silent, &speaking, hidden, liar)?;
                let back = mirrors_to(alloc, &speaking, &silent, hidden, liar)?;
                assert!(rt; there & back, "{format}, {servers}, {hidden}, {number}");
            }
        }
    }
    Ok(())
}
