ghost use Rattle.std.specs.Prelude.{◌≡◌, length};
ghost use Rattle.tk_shape.specs.Lengths.{tape_len};

use crate::inputs::{HIDDEN, Input, Liar, liar_of, read, replies_of};
use std::alloc::Global;
use std::test::Fail;
use tk_client::Got;
use tk_hostile::wrong_logs;
use tk_schedule::History;
use tk_script::Script;
use tk_words::{DrawnDraws, Tape};

/// Three servers and two clients, nobody of whom says anything in the one turn, and words for them.
const SILENT: &[u8] = b"talek 1
shape 3 8 4 4 24 64 1 0 2 1 1 1
drawn
log 0 1
end
tape
fill 15 36
fill 12 36
fill 21 12
x 0000000000000000a00bc00d
fill 31 36
end
";

/// What the first log gave the follower, number by number, where a server is hidden and another makes a text up.
fn given(
    alloc: Global,
    script: &Script,
    tape: Tape,
    hidden: u32,
    liar: Liar,
) -> Result<Vec<u8>, Fail>
    requires { length tape ≡ tape_len script.now.shape }
{
    if hidden < 1 || hidden > script.shape.servers {
        return Err("a server".into());
    }
    let history = History::serial(alloc, &script.shape)?;
    let replies = replies_of(alloc, &script.shape, liar)?;
    let draws = DrawnDraws::new(&script.shape, tape);
    let clients = wrong_logs(alloc, script, &draws, &history, hidden, &replies)?;
    let follower = clients.as_slice().get(1).ok_or("a follower")?;
    let mut told = Vec::new(alloc);
    for got in follower.log(0) {
        match got {
            Got::Absent => told.extend_from_slice(b"absent\n")?,
            Got::Text(text) => {
                told.extend_from_slice(b"text ")?;
                told.extend_from_slice(text.as_slice())?;
                told.push(b'\n')?;
            }
        }
    }
    Ok(told)
}

/// What is given where a text was made up, and where none was.
fn wanted(is_used: bool) -> &'static [u8] {
    if is_used { b"text hi\n" } else { b"" }
}

// a server that answers as it likes gives a text that nobody has sent; the hidden one is honest
#[test]
fn text_that_nobody_sent(rt: HostRuntime) -> Result<(), Fail> {
    let alloc = rt.alloc();
    for (liar, is_used) in [(Some(2), true), (None, false), (Some(1), false)] {
        let (script, tape) = read(alloc, SILENT)?;
        let found = given(alloc, &script, tape, 1, liar)?;
        assert!(rt; found.as_slice() == wanted(is_used));
    }
    Ok(())
}

// in either format, whichever server is hidden
#[test]
fn texts_that_nobody_sent(rt: HostRuntime) -> Result<(), Fail> {
    let alloc = rt.alloc();
    for format in [1, 2] {
        for (servers, hidden, _, _) in HIDDEN {
            for number in 0..servers + 1 {
                let (liar, is_used) = liar_of(number, hidden);
                let (script, tape) = Input::silent(format, servers).read(alloc)?;
                let found = given(alloc, &script, tape, hidden, liar)?;
                assert!(rt;
                    found.as_slice() == wanted(is_used),
                    "{format}, {servers}, {hidden}, {number}"
                );
            }
        }
    }
    Ok(())
}
