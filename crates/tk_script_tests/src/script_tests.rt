use std::alloc::Global;
use std::test::Fail;
use tk_schedule::{Item, RawKind, RawLine};
use tk_script::{Cause, Form, Input, Keys, RawReply, Script, ScriptError, parse, plain_number};
use tk_shape::{Field, Memory};

/// The numbers of the shape that most of these texts have.
pub(crate) const SMALL: [u32; 12] = [2, 8, 4, 4, 24, 64, 1, 0, 2, 2, 1, 1];

/// The front of a script of drawn words, and the rest of it.
const HEAD: &[u8] = b"talek 1\nshape 2 8 4 4 24 64 1 0 2 2 1 1\ndrawn\n";

/// The same front in format 2.
pub(crate) const SEEDED: &[u8] = b"talek 2\nshape 2 8 4 4 24 64 1 0 2 2 1 1\ndrawn\n";

const SCRIPT: &[u8] = b"log 0 1\nsay 1 1 0 hi you\nend\n";

/// The front of a script of keys, of one log and one client.
const KEYED: &[u8] = b"talek 1\nshape 8 8 4 4 24 64 1 0 1 2 1 1\nkeyed\nlog 0\n";

/// Four words of a handle.
const FOUR: &[u8] = b"00000000000000aB00000000000000aB00000000000000aB00000000000000aB";

/// The last word of a handle, and the line of a seed.
const SEED: &[u8] =
    b"00000000000000aB\nseed 0123456789abcDEF0123456789abcDEF0123456789abcDEF0123456789abcDEF";

/// The parts of a text, one after the other.
pub(crate) type Parts = &'static [&'static [u8]];

/// Appends the parts of a text.
pub(crate) fn join(parts: &[&[u8]], text: &mut Vec<u8>) -> Result<(), Memory> {
    for part in parts {
        text.extend_from_slice(part)?;
    }
    Ok(())
}

/// The input of a form that parts of a text spell.
fn parsed_as(alloc: Global, parts: &[&[u8]], form: Form) -> Result<Input, ScriptError> {
    let mut text = Vec::new(alloc);
    join(parts, &mut text)?;
    parse(alloc, &text, form)
}

/// The input that parts of a text spell.
pub(crate) fn parsed(alloc: Global, parts: &[&[u8]]) -> Result<Input, ScriptError> {
    parsed_as(alloc, parts, Form::Run)
}

/// Whether a script has one log, which client 0 writes and client 1 follows, and on which one text
/// is said.
fn is_drawn(script: &Script) -> bool {
    if script.keys.is_some() || script.roles.as_slice().len() != 1 {
        return false;
    }
    let [say] = script.says.as_slice() else {
        return false;
    };
    script.shape.numbers() == SMALL
        && script.roles.as_slice()[0].writer == 0
        && script.roles.as_slice()[0].followers.as_slice() == [1].as_slice()
        && (say.phase, say.tick, say.log) == (1, 1, 0)
        && say.text.as_slice() == b"hi you".as_slice()
}

const DRAWN_INPUT: Parts = &[HEAD, SCRIPT, b"tape\nfill 11 252\nx aB0c\nfill fF 2\nend\n"];

#[test]
fn drawn_input(rt: HostRuntime) -> Result<(), Fail> {
    let Input { first, tape, .. } = parsed(rt.alloc(), DRAWN_INPUT)?;
    assert!(rt; is_drawn(&first));
    let tape = tape.expect(&rt, "a tape");
    assert!(rt; tape.got == 256);
    assert!(rt;
        tape.bytes.as_slice().get(251..) == Some([0x11, 0xab, 0x0c, 0xff, 0xff].as_slice())
    );
    Ok(())
}

/// A tape in format 2 has seeds too.
const SEEDED_INPUT: Parts = &[SEEDED, SCRIPT, b"tape\nfill 11 512\nend\n"];

#[test]
fn drawn_input_of_format_2(rt: HostRuntime) -> Result<(), Fail> {
    let Input { first, tape, .. } = parsed(rt.alloc(), SEEDED_INPUT)?;
    assert!(rt; is_drawn(&first));
    assert!(rt; first.shape.format == 2);
    let tape = tape.expect(&rt, "a tape");
    assert!(rt; tape.got == 512 && tape.bytes.as_slice().len() == 512);
    Ok(())
}

/// Whether there is one handle, of this number, and one seed.
fn are_one(keys: &Keys, id: u64) -> bool {
    match (keys.handles.as_slice(), keys.seeds.as_slice()) {
        ([handle], [_]) => handle.id == id,
        _ => false,
    }
}

const KEYED_INPUT: Parts = &[
    KEYED,
    b"handle ",
    FOUR,
    FOUR,
    FOUR,
    SEED,
    b"\nsay 2 1 0 \nend\n",
];

#[test]
fn keyed_input(rt: HostRuntime) -> Result<(), Fail> {
    for form in [Form::Run, Form::Relay] {
        let Input { first, tape, .. } = parsed_as(rt.alloc(), KEYED_INPUT, form)?;
        assert!(rt; tape.is_none());
        let keys = first.keys.expect(&rt, "keys");
        assert!(rt; are_one(&keys, 0xab));
    }
    Ok(())
}

/// The rest of a drawn input's text, and how many bytes its tape has.
const TAPES: [(&[u8], u64); 3] = [
    (b"tape\nfill 11 256\nend", 256),
    (b"tape\nend\n", 0),
    (b"tape\nfill 11 2097152\nfill 11 2097152\nend\n", 4194304),
];

/// How many bytes the tape of an input has, of which 256 are kept at the most; with none, or more
/// kept, 1.
fn counted(alloc: Global, tape: &[u8]) -> Result<u64, ScriptError> {
    let read = parsed(alloc, &[HEAD, SCRIPT, tape])?.tape;
    match read {
        Some(tape) if tape.bytes.as_slice().len() <= 256 => Ok(tape.got),
        _ => Ok(1),
    }
}

#[test]
fn tapes_counted(rt: HostRuntime) -> Result<(), Fail> {
    for (tape, got) in &TAPES {
        assert!(rt; counted(rt.alloc(), tape)? == *got);
    }
    Ok(())
}

/// The parts of a text, the line that is refused, and why.
const REFUSED: [(Parts, u64, Cause); 31] = [
    (&[HEAD, SCRIPT], 7, Cause::Early),
    (&[HEAD, SCRIPT, b"tape\nfill 11 256\n"], 9, Cause::Early),
    (
        &[HEAD, SCRIPT, b"tape\nfill 11 256\nend\n\n"],
        10,
        Cause::After,
    ),
    (
        &[HEAD, SCRIPT, b"tape\nfill 11 0\nfill 11 256\nend\n"],
        8,
        Cause::Number { value: 0 },
    ),
    (&[HEAD, SCRIPT, b"tape\nfill 1 256\nend\n"], 8, Cause::Form),
    (
        &[HEAD, SCRIPT, b"tape\nfill 11 256 \nend\n"],
        8,
        Cause::Form,
    ),
    (
        &[HEAD, SCRIPT, b"tape\nx \nfill 11 256\nend\n"],
        8,
        Cause::Form,
    ),
    (
        &[HEAD, SCRIPT, b"tape\nfill 11 255\nx 123\nend\n"],
        9,
        Cause::Form,
    ),
    (&[HEAD, b"log 0 4294967296\n"], 4, Cause::Form),
    (&[HEAD, b"log 0 01\n"], 4, Cause::Form),
    (&[HEAD, b"log 0 2\n"], 4, Cause::Number { value: 2 }),
    (&[HEAD, b"log 0 1 0\n"], 4, Cause::Order),
    (
        &[HEAD, b"log 0 1\nsay 3 1 0 a\n"],
        5,
        Cause::Number { value: 3 },
    ),
    (
        &[HEAD, b"log 0 1\nsay 2 1 0 a\nsay 1 1 0 b\nend\n"],
        6,
        Cause::Order,
    ),
    (
        &[HEAD, b"log 0 1\nsay 1 1 0 abcdefg\n"],
        5,
        Cause::Room { room: 6 },
    ),
    (
        &[HEAD, b"log 0 1\nsay 1 1 0 ab\tc\n"],
        5,
        Cause::Text { at: 2 },
    ),
    (&[HEAD, b"log 0 1\nsay 1 1 0\nend\n"], 5, Cause::Form),
    (
        &[
            KEYED,
            b"handle ",
            FOUR,
            FOUR,
            b"00000000000000aB00000000000000aB00000000000000aB",
            SEED,
            b"\nend\n",
        ],
        5,
        Cause::Form,
    ),
    (
        &[KEYED, b"handle ", FOUR, FOUR, FOUR, SEED, b" \nend\n"],
        6,
        Cause::Form,
    ),
    (
        &[
            KEYED,
            b"handle ",
            FOUR,
            FOUR,
            FOUR,
            SEED,
            b"\nend\ntape\nend\n",
        ],
        8,
        Cause::After,
    ),
    (
        &[KEYED, b"handle ", FOUR, FOUR, FOUR, SEED, b"\n"],
        7,
        Cause::Early,
    ),
    (
        &[b"talek 3\nshape ", b"2 8 4 4 24 64 1 0 2 2 1 1\ndrawn\n"],
        1,
        Cause::Form,
    ),
    (
        &[
            b"talek 1\nshape ",
            b"2 16384 1 4 24 64 1 0 2 2 1 1\nkeyed\n",
        ],
        2,
        Cause::Shape {
            field: Field::Buckets,
            value: 16384,
        },
    ),
    (
        &[
            b"talek 2\nshape ",
            b"2 16384 1 4 24 64 1 0 2 2 1 1\nkeyed\n",
        ],
        4,
        Cause::Early,
    ),
    (
        &[
            b"talek 2\nshape ",
            b"2 32768 1 4 24 64 1 0 2 2 1 1\nkeyed\n",
        ],
        2,
        Cause::Shape {
            field: Field::Buckets,
            value: 32768,
        },
    ),
    (
        &[b"talek 1\nshape ", b"2 8 4 4 24 64 1 0 2 2 1\ndrawn\n"],
        2,
        Cause::Form,
    ),
    (
        &[b"talek 1\nshape ", b"9 8 4 5 24 64 1 9 2 2 1 1\ndrawn\n"],
        2,
        Cause::Shape {
            field: Field::Servers,
            value: 9,
        },
    ),
    (
        &[b"talek 1\nshape ", b"2 8 4 33 24 64 1 1 2 2 1 1\ndrawn\n"],
        2,
        Cause::Shape {
            field: Field::Retained,
            value: 33,
        },
    ),
    (
        &[b"talek 1\nshape ", b"2 8 4 32 24 64 1 0 2 2 1 1\ndrawn\n"],
        4,
        Cause::Early,
    ),
    (
        &[b"talek 1\nshape ", b"2 8 4 4 24 64 1 8 2 2 1 1\ndrawn\n"],
        4,
        Cause::Early,
    ),
    (
        &[b"talek 1\nshape ", b"2 8 4 4 24 64 1 0 2 2 1 1\ndrown\n"],
        3,
        Cause::Form,
    ),
];

#[test]
fn first_bad_line_named(rt: HostRuntime) {
    for &(parts, line, cause) in &REFUSED {
        let error = parsed(rt.alloc(), parts).err();
        assert!(rt; error == Some(ScriptError::Line { line, cause }));
    }
}

/// A history of two turns, which needn't be one that a run has.
const HISTORY: &[u8] =
    b"history\norder 1 1 0 1 mark\nreads 1 1 0 0\norder 7 4294967295 mark\nend\n";

const TAPE: &[u8] = b"tape\nfill 11 256\nend\n";

/// Whether lines are those of the history, and have these numbers.
fn are_lines(lines: &[RawLine], numbers: [u64; 4]) -> bool {
    let [first, second, third, end] = lines else {
        return false;
    };
    let numbered = [first.line, second.line, third.line, end.line] == numbers;
    numbered && is_order(&first.kind) && is_end(&end.kind)
}

fn is_end(kind: &RawKind) -> bool {
    match kind {
        RawKind::End => true,
        _ => false,
    }
}

/// Whether it is the order of client 0, client 1 and the mark in the first turn.
fn is_order(kind: &RawKind) -> bool {
    match kind {
        RawKind::Order { phase, tick, items } => {
            *phase == 1
                && *tick == 1
                && items.as_slice() == [Item::Client(0), Item::Client(1), Item::Publish].as_slice()
        }
        _ => false,
    }
}

#[test]
fn view_input(rt: HostRuntime) -> Result<(), Fail> {
    let read = parsed_as(rt.alloc(), &[HEAD, SCRIPT, HISTORY, TAPE], Form::View)?;
    assert!(rt; is_drawn(&read.first));
    assert!(rt; read.second.is_none());
    let history = read.history.expect(&rt, "a history");
    assert!(rt; are_lines(history.as_slice(), [8, 9, 10, 11]));
    assert!(rt; read.tape.is_some());
    Ok(())
}

#[test]
fn mirror_input(rt: HostRuntime) -> Result<(), Fail> {
    let parts = [HEAD, b"log 1\nend\n", SEEDED, SCRIPT, HISTORY, TAPE];
    let read = parsed_as(rt.alloc(), &parts, Form::Mirror)?;
    let second = read.second.expect(&rt, "a script");
    assert!(rt; read.first.says.as_slice().is_empty());
    assert!(rt; is_drawn(&second));
    assert!(rt; (read.first.shape.format, second.shape.format) == (1, 2));
    let history = read.history.expect(&rt, "a history");
    assert!(rt; are_lines(history.as_slice(), [13, 14, 15, 16]));
    assert!(rt; read.tape.is_some());
    Ok(())
}

/// Two sums of the shape in digits.
const ZEROS: [u8; 640] = [b'0'; 640];

/// One sum in digits.
const HALF: [u8; 320] = [b'0'; 320];

/// Whether they are two replies, of which the first begins with a byte of ones.
fn are_replies(replies: &[RawReply]) -> bool {
    let [first, second] = replies else {
        return false;
    };
    (first.turn, first.client, first.server) == (0, 1, 2)
        && (second.turn, second.client, second.server) == (1, 0, 1)
        && first.first.as_slice().first() == Some(&0xFF)
        && first.second.as_slice().len() == 160
        && second.first.as_slice() == [0; 160].as_slice()
}

#[test]
fn wrong_input(rt: HostRuntime) -> Result<(), Fail> {
    let parts = [
        HEAD,
        SCRIPT,
        HEAD,
        SCRIPT,
        HISTORY,
        b"replies\nreply 0 1 2 fF",
        &ZEROS[2..],
        b"\nreply 1 0 1 ",
        &ZEROS,
        b"\nend\n",
        TAPE,
    ];
    let read = parsed_as(rt.alloc(), &parts, Form::Wrong)?;
    assert!(rt; are_replies(read.replies.expect(&rt, "replies").as_slice()));
    assert!(rt; read.second.is_some() && read.history.is_some() && read.tape.is_some());
    Ok(())
}

/// What stands after two scripts, of which the second says nothing, and a history; the line that is
/// refused, and why.
const REFUSED_REPLIES: [(Parts, u64, Cause); 6] = [
    (&[TAPE], 18, Cause::Form),
    (&[b"replies\n"], 19, Cause::Early),
    (&[b"replies\nreply 9 9 9 ", &HALF], 19, Cause::Form),
    (
        &[b"replies\nreply 2 9 9 ", &ZEROS],
        19,
        Cause::Number { value: 2 },
    ),
    (
        &[b"replies\nreply 1 1 0 ", &ZEROS],
        19,
        Cause::Number { value: 0 },
    ),
    (
        &[b"replies\nreply 0 1 1 ", &ZEROS, b"\nreply 0 0 2 ", &ZEROS],
        20,
        Cause::Order,
    ),
];

#[test]
fn first_bad_line_of_replies_named(rt: HostRuntime) -> Result<(), Fail> {
    for &(parts, line, cause) in &REFUSED_REPLIES {
        let mut text = Vec::new(rt.alloc());
        join(&[HEAD, SCRIPT, HEAD, SCRIPT, HISTORY], &mut text)?;
        join(parts, &mut text)?;
        let error = parse(rt.alloc(), &text, Form::Wrong).err();
        assert!(rt; error == Some(ScriptError::Line { line, cause }));
    }
    Ok(())
}

/// The parts of a text of a form, the line that is refused, and why.
const REFUSED_FORMS: [(Form, Parts, u64, Cause); 16] = [
    (Form::Run, &[HEAD, SCRIPT, HISTORY, TAPE], 7, Cause::Form),
    (Form::Relay, &[HEAD, SCRIPT, TAPE], 3, Cause::Form),
    // the tape would be too long, but a drawn script is none that may stand here
    (
        Form::Relay,
        &[b"talek 1\nshape 2 8 4 4 24 64 1 0 64 256 3 1\ndrawn\n"],
        3,
        Cause::Form,
    ),
    (Form::Relay, &[KEYED], 5, Cause::Early),
    (
        Form::Relay,
        &[KEYED, b"handle ", FOUR, FOUR, FOUR, SEED, b"\nend\n", TAPE],
        8,
        Cause::After,
    ),
    (Form::View, &[HEAD, SCRIPT, TAPE], 7, Cause::Form),
    (Form::View, &[HEAD, SCRIPT, b"history\n"], 8, Cause::Early),
    (
        Form::View,
        &[HEAD, SCRIPT, b"history\norder 1 1\nend\n"],
        8,
        Cause::Form,
    ),
    (
        Form::View,
        &[HEAD, SCRIPT, b"history\norder 1 1 01\nend\n"],
        8,
        Cause::Form,
    ),
    (
        Form::View,
        &[HEAD, SCRIPT, b"history\nreads 1 1 mark\nend\n"],
        8,
        Cause::Form,
    ),
    (
        Form::View,
        &[HEAD, SCRIPT, b"history\norder 1 4294967296 0\nend\n"],
        8,
        Cause::Form,
    ),
    (Form::View, &[HEAD, SCRIPT, HISTORY], 12, Cause::Early),
    (Form::Mirror, &[KEYED], 3, Cause::Form),
    (Form::Mirror, &[HEAD, SCRIPT, KEYED], 9, Cause::Form),
    (Form::Mirror, &[HEAD, SCRIPT, HISTORY, TAPE], 7, Cause::Form),
    (
        Form::Mirror,
        &[HEAD, SCRIPT, HEAD, SCRIPT, HISTORY, TAPE, b"\n"],
        21,
        Cause::After,
    ),
];

#[test]
fn first_bad_line_of_a_form_named(rt: HostRuntime) {
    for &(form, parts, line, cause) in &REFUSED_FORMS {
        let error = parsed_as(rt.alloc(), parts, form).err();
        assert!(rt; error == Some(ScriptError::Line { line, cause }));
    }
}

const NUMBERS: [(&[u8], Option<u64>); 4] = [
    (b"0", Some(0)),
    (b"18446744073709551615", Some(u64::MAX)),
    (b"18446744073709551616", None),
    (b"+1", None),
];

#[test]
fn plain_numbers(rt: HostRuntime) {
    for (text, number) in &NUMBERS {
        assert!(rt; plain_number(text) == *number);
    }
}
