use crate::inputs::{HIDDEN, Input, Liar, liar_of, replies_of};
use std::alloc::Global;
use std::test::Fail;
use tk_hostile::wrong_view;
use tk_privacy::view;
use tk_schedule::History;
use tk_words::DrawnDraws;

/// The frames that a server sees one after the other, where all are honest, or where one is hidden and another makes a
/// text up.
fn seen(
    alloc: Global,
    input: &Input,
    server: u32,
    hidden: Option<u32>,
    liar: Liar,
) -> Result<Vec<u8>, Fail> {
    let (script, tape) = input.read(alloc)?;
    if server < 1 || server > script.shape.servers {
        return Err("a server".into());
    }
    let history = History::serial(alloc, &script.shape)?;
    let draws = DrawnDraws::new(&script.shape, tape);
    let mut frames = Vec::new(alloc);
    if let Some(hidden) = hidden {
        if hidden < 1 || hidden > script.shape.servers {
            return Err("a hidden server".into());
        }
        let replies = replies_of(alloc, &script.shape, liar)?;
        wrong_view(
            alloc,
            &script,
            &draws,
            &history,
            hidden,
            &replies,
            server,
            &mut frames,
        )?;
    } else {
        view(alloc, &script, &draws, &history, server, &mut frames)?;
    }
    let mut bytes = Vec::new(alloc);
    for frame in frames.iter() {
        bytes.extend_from_slice(frame.as_slice())?;
    }
    Ok(bytes)
}

/// The vectors that the last server sees at last, those of a read of the first number of the log, and of the second.
fn last_vectors(servers: u32) -> [[u8; 2]; 2] {
    if servers == 2 {
        [[0xa2, 0xc2], [0xa4, 0xc4]]
    } else {
        [[0xa9, 0xcf], [0xaf, 0xc9]]
    }
}

// the last server sees the follower ask for the second number at last, where it was given the first, and honest ones
// for the first
#[test]
fn later_read_changed(rt: HostRuntime) -> Result<(), Fail> {
    let alloc = rt.alloc();
    for format in [1, 2] {
        for (servers, hidden, _, _) in HIDDEN {
            let input = Input::silent(format, servers);
            let [first, second] = last_vectors(servers);
            let honest = seen(alloc, &input, servers, None, None)?;
            assert!(rt; honest.as_slice().ends_with(&first));
            for number in 0..servers + 1 {
                let (liar, is_used) = liar_of(number, hidden);
                let found = seen(alloc, &input, servers, Some(hidden), liar)?;
                let vectors = if is_used { second } else { first };
                assert!(rt;
                    found.as_slice().ends_with(&vectors),
                    "{format}, {servers}, {hidden}, {number}"
                );
            }
        }
    }
    Ok(())
}

// each server but the hidden one sees the same of both scripts, and the hidden one does not
#[test]
fn views_of_mirrored_words(rt: HostRuntime) -> Result<(), Fail> {
    let alloc = rt.alloc();
    for format in [1, 2] {
        for (servers, hidden, before, behind) in HIDDEN {
            let first = Input::silent(format, servers);
            let second = Input::speaking(format, servers, [before, behind]);
            // one that isn't hidden
            let liar = Some(if hidden == 1 { 2 } else { 1 });
            for server in 1..servers + 1 {
                let silent = seen(alloc, &first, server, Some(hidden), liar)?;
                let speaking = seen(alloc, &second, server, Some(hidden), liar)?;
                let same = silent.as_slice() == speaking.as_slice();
                assert!(rt;
                    same == (server != hidden),
                    "{format}, {servers}, {hidden}, {server}"
                );
            }
        }
    }
    Ok(())
}
