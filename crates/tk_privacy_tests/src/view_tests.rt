ghost use Rattle.std.specs.Prelude.{◌≡◌};

use crate::inputs::{ALIKE, SAID, alike, front, joined};
use std::alloc::Global;
use std::test::Fail;
use tk_privacy::view;
use tk_schedule::History;
use tk_script::{Form, Input, Script, parse};
use tk_words::{Book, Draws};

/// Two clients and two servers over two phases, and words for them.
const TWO_PHASES: &[u8] = b"talek 1
shape 2 8 4 4 24 64 1 0 2 2 1 1
drawn
log 0 1
say 1 1 0 hi
end
tape
fill 11 36
fill 12 36
fill 13 36
fill 14 36
fill 21 10
fill 22 10
fill 23 10
fill 24 10
fill 31 36
fill 32 36
end
";

/// What either server sees of them, a frame a line.
const SEEN: [&str; 2] = [
    "050100000000000000010000000000000000000000010000000100000031313359583131313131313131313131313131313131313131
050100000000000000020000000100000000000000020000000200000012121212121212121212121212121212121212121212121212
0401000000000000000300000001
02010000000000000000000000002121
02010000000100000000000000002222
050100000000000000040000000000000001000000030000000300000013131313131313131313131313131313131313131313131313
050100000000000000050000000100000001000000040000000400000014141414141414141414141414141414141414141414141414
0401000000000000000600000002
02010000000000000001000000012323
02010000000100000001000000012424
",
    "050100000000000000010000000000000000000000010000000100000031313359583131313131313131313131313131313131313131
050100000000000000020000000100000000000000020000000200000012121212121212121212121212121212121212121212121212
0401000000000000000300000001
02010000000000000000000000002323
02010000000100000000000000002020
050100000000000000040000000000000001000000030000000300000013131313131313131313131313131313131313131313131313
050100000000000000050000000100000001000000040000000400000014141414141414141414141414141414141414141414141414
0401000000000000000600000002
02010000000000000001000000012b2b
02010000000100000001000000012626
",
];

/// The entries of a turn in which the first of two clients speaks, where words are drawn and where they come of keys:
/// two records and a mark.
const ENTRIES: [&str; 2] = [
    "050100000000000000010000000000000000000000010000000100000031313359583131313131313131313131313131313131313131
050100000000000000020000000100000000000000020000000200000012121212121212121212121212121212121212121212121212
0401000000000000000300000001
",
    "050100000000000000010000000000000000000000000000000000000031510f207193b791fcd94f58399e388063167d429af5dccea6
05010000000000000002000000010000000000000005000000010000002c9a348a6e80991aab459355634784ff554b4ea753d09955fe
0401000000000000000300000001
",
];

/// The keys of a log and of two clients.
const KEYS: &str = "keyed
log 0 1
handle 000000000000000076b8e0ada0f13d90405d6ae55386bd28bdd219b8a08ded1aa836efcc8b770dc7da41597c5157488d7724e03fb8d84a376a43b8f41518a11cc387b669b2ee65869f07e7be5551387a98ba977c732d080dcb0f29a048e3656912c6533e32ee7aed
seed 0000000000000000000000000000000000000000000000000000000000000001
seed 0000000000000000000000000000000000000000000000000000000000000002
";

/// What each of two servers sees of the reads of that turn, and each of three, in either format, where words are drawn.
const DRAWN: [(u32, u32, [&str; 3]); 4] = [
    (
        1,
        2,
        [
            "02010000000000000000000000002121
0201000000010000000000000000a0c0
",
            "02010000000000000000000000002323
0201000000010000000000000000a2c2
",
            "",
        ],
    ),
    (
        1,
        3,
        [
            "02010000000000000000000000002121
0201000000010000000000000000a0c0
",
            "02010000000000000000000000002121
02010000000100000000000000000b0d
",
            "02010000000000000000000000000202
0201000000010000000000000000a9cf
",
        ],
    ),
    (
        2,
        2,
        [
            "0701000000000000000000000000212121212121212121212121212121212121212121212121212121212121212121212121212121212121212121212121212121212121212121212121212121212121
070100000001000000000000000051515151515151515151515151515151515151515151515151515151515151515252525252525252525252525252525252525252525252525252525252525252a0c0
",
            "02010000000000000000000000002323
0201000000010000000000000000a2c2
",
            "",
        ],
    ),
    (
        2,
        3,
        [
            "0701000000000000000000000000212121212121212121212121212121212121212121212121212121212121212121212121212121212121212121212121212121212121212121212121212121212121
070100000001000000000000000051515151515151515151515151515151515151515151515151515151515151515353535353535353535353535353535353535353535353535353535353535353a0c0
",
            "0701000000000000000000000000212121212121212121212121212121212121212121212121212121212121212121212121212121212121212121212121212121212121212121212121212121212121
0701000000010000000000000000525252525252525252525252525252525252525252525252525252525252525254545454545454545454545454545454545454545454545454545454545454540b0d
",
            "02010000000000000000000000000202
0201000000010000000000000000a9cf
",
        ],
    ),
];

/// Likewise, where they come of keys.
const KEYED: [(u32, u32, [&str; 3]); 4] = [
    (
        1,
        2,
        [
            "02010000000000000000000000008977
0201000000010000000000000000a580
",
            "02010000000000000000000000008876
0201000000010000000000000000a481
",
            "",
        ],
    ),
    (
        1,
        3,
        [
            "02010000000000000000000000008923
0201000000010000000000000000a5e3
",
            "02010000000000000000000000007757
020100000001000000000000000080fc
",
            "0201000000000000000000000000ff75
0201000000010000000000000000241e
",
        ],
    ),
    (
        2,
        2,
        [
            "0601000000000000000000000000897723574ac11bcbf776adc02dbf7b1f81ea10c3c49c5df9b7868153cb253800be8170fe0b7a50a7588a24d6eb1e6c09c2848a7614ca23c03caf597778f456bd
0601000000010000000000000000a580e3fc0f10d7538f874d439fd53709c378f1041bd39f717546f4db3f62b53e79dbeb635df605b0f445676c48fd8ee8a36a666026030383479eff60850f617b
",
            "020100000000000000000000000046b0
02010000000100000000000000002a1f
",
            "",
        ],
    ),
    (
        2,
        3,
        [
            "0601000000000000000000000000897723574ac11bcbf776adc02dbf7b1f81ea10c3c49c5df9b7868153cb253800315c45b19cd411796049ec83009d69d2bf686331a884af9a71b4610b27d54510
0601000000010000000000000000a580e3fc0f10d7538f874d439fd53709c378f1041bd39f717546f4db3f62b53e36c50304de52f03fa86ee7876aab068fb391b366a466a952204c2c2e1dd6ff31
",
            "0601000000000000000000000000be8170fe0b7a50a7588a24d6eb1e6c09c2848a7614ca23c03caf597778f456bdc1719312e110ebcd225bffdd9599546e1cd667ca4f2b61ff3365bc2ea4291b6e
060100000001000000000000000079dbeb635df605b0f445676c48fd8ee8a36a666026030383479eff60850f617b4b055053f748ada3cfb035af9e8107627c5e16b8ed2ec14abf9ce8c820d7eaeb
",
            "0201000000000000000000000000f716
02010000000100000000000000003479
",
        ],
    ),
];

/// The frames that a server sees over the serial history, a line of hexadecimal digits each.
fn seen(alloc: Global, text: &[u8], server: u32) -> Result<Vec<u8>, Fail> {
    let Ok(
        Input {
            first: script,
            tape,
            ..
        },
    ) = parse(alloc, text, Form::Run)
    else {
        return Err("an input".into());
    };
    match script.book(alloc, tape) {
        Ok(Book::Drawn(draws)) => seen_over(alloc, &script, &draws, server),
        Ok(Book::Keyed(draws)) => seen_over(alloc, &script, &draws, server),
        Err(_) => Err("a book".into()),
    }
}

fn seen_over<D: Draws>(
    alloc: Global,
    script: &Script,
    draws: &D,
    server: u32,
) -> Result<Vec<u8>, Fail>
    requires { D.shape draws.now ≡ script.now.shape }
{
    if server < 1 || server > script.shape.servers {
        return Err("a server".into());
    }
    let history = History::serial(alloc, &script.shape)?;
    let mut frames = Vec::new(alloc);
    view(alloc, script, draws, &history, server, &mut frames)?;
    let mut text = Vec::new(alloc);
    for frame in frames.iter() {
        text.extend_from_slice(hex::encode(alloc, frame.as_slice())?.as_bytes())?;
        text.push(b'\n')?;
    }
    Ok(text)
}

/// Whether each server sees these entries and its own reads.
fn shows(
    alloc: Global,
    text: &[u8],
    servers: u32,
    entries: &str,
    reads: [&str; 3],
) -> Result<bool, Fail> {
    let mut server = 0u32;
    for read in reads {
        if server < servers {
            server += 1;
            let wanted = joined(alloc, &[entries, read])?;
            if seen(alloc, text, server)?.as_slice() != wanted.as_slice() {
                return Ok(false);
            }
        }
    }
    Ok(true)
}

#[test]
fn views(rt: HostRuntime) -> Result<(), Fail> {
    let alloc = rt.alloc();
    for (server, wanted) in [(1, SEEN[0]), (2, SEEN[1])] {
        let found = seen(alloc, TWO_PHASES, server)?;
        assert!(rt; found.as_slice() == wanted.as_bytes());
    }
    Ok(())
}

#[test]
fn views_of_each_kind(rt: HostRuntime) -> Result<(), Fail> {
    let alloc = rt.alloc();
    let [drawn, keyed] = ENTRIES;
    for (format, servers, reads) in DRAWN {
        let vectors = if servers == 2 { "a0c0" } else { "a00bc00d" };
        let (input, _) = alike(format, servers, [vectors, vectors]);
        let text = input.text(alloc)?;
        assert!(rt;
            shows(alloc, &text, servers, drawn, reads)?,
            "{format}, {servers}"
        );
    }
    for (format, servers, reads) in KEYED {
        let text = joined(alloc, &[front(format, servers), KEYS, SAID, "end\n"])?;
        assert!(rt;
            shows(alloc, &text, servers, keyed, reads)?,
            "{format}, {servers}"
        );
    }
    Ok(())
}

// each server but the hidden one sees the same of both scripts, and the hidden one does not
#[test]
fn views_of_mirrored_words(rt: HostRuntime) -> Result<(), Fail> {
    let alloc = rt.alloc();
    for format in [1, 2] {
        for (servers, hidden, speaking, silent) in ALIKE {
            let (speaking, silent) = alike(format, servers, [speaking, silent]);
            let (speaking, silent) = (speaking.text(alloc)?, silent.text(alloc)?);
            for server in 1..servers + 1 {
                let same = seen(alloc, &speaking, server)? == seen(alloc, &silent, server)?;
                assert!(rt;
                    same == (server != hidden),
                    "{format}, {servers}, {hidden}, {server}"
                );
            }
        }
    }
    Ok(())
}
