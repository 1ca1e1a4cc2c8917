use crate::script_tests::{Parts, SEEDED, SMALL, join, parsed};
use std::alloc::Global;
use std::test::Fail;
use tk_script::{
    BookError, Cause, Form, Input, ScriptError, parse, parse_printed, parse_printed_with, print,
    print_tape, push_cause, push_field, push_line, push_number, push_numbers, push_numbers_line,
};
use tk_shape::{Memory, Shape};
use tk_words::Tape;

/// Whether a text is that of these parts.
fn is_joined(text: &Vec<u8>, parts: &[&[u8]]) -> Result<bool, Memory> {
    let mut wanted = Vec::new(*text.allocator());
    join(parts, &mut wanted)?;
    Ok(text.as_slice() == wanted.as_slice())
}

/// Digits as they are printed, four words of them, and as they may be read.
const PRINTED: &[u8] = b"0123456789abcdef0123456789abcdef0123456789abcdef0123456789abcdef";

const MIXED: &[u8] = b"0123456789aBcDEF0123456789aBcDEF0123456789aBcDEF0123456789aBcDEF";

/// The text of a keyed script of one log and two clients.
const KEYED: Parts = &[
    b"talek 1\nshape 3 8 4 4 24 64 1 0 2 2 1 1\nkeyed\nlog 0 1\nhandle ",
    PRINTED,
    PRINTED,
    PRINTED,
    b"0123456789abcdef\nseed ",
    PRINTED,
    b"\nseed ",
    PRINTED,
    b"\nsay 2 1 0 hi you\nend\n",
];

/// The same, spelled otherwise.
const SPELLED: Parts = &[
    b"talek 1\nshape 3 8 4 4 24 64 1 0 2 2 1 1\nkeyed\nlog 0 1\nhandle ",
    MIXED,
    MIXED,
    MIXED,
    b"0123456789aBcDEF\nseed ",
    MIXED,
    b"\nseed ",
    MIXED,
    b"\nsay 2 1 0 hi you\nend",
];

/// The front of a drawn script, and its tape.
const HEAD: &[u8] = b"talek 1\nshape 2 8 4 4 24 64 1 0 2 2 1 1\ndrawn\n";

const TAPE: &[u8] = b"tape\nfill 0F 256\nend";

/// A tape in format 2.
const SEEDED_TAPE: &[u8] = b"tape\nfill 0F 512\nend";

/// Two texts and no follower, one text and a follower, and no text and two followers.
const QUIET: &[u8] = b"log 1\nsay 1 1 0 \nsay 2 1 0  a \nend\n";

const ONE: &[u8] = b"log 0 1\nsay 1 1 0 hi you\nend\n";

const FOLLOWED: &[u8] = b"log 1 0 1\nend\n";

/// The text of an input, and what is printed of its script.
const PRINTS: [(Parts, Parts); 6] = [
    (&[HEAD, ONE, TAPE], &[HEAD, ONE]),
    (&[HEAD, QUIET, TAPE], &[HEAD, QUIET]),
    (&[HEAD, FOLLOWED, TAPE], &[HEAD, FOLLOWED]),
    (&[SEEDED, FOLLOWED, SEEDED_TAPE], &[SEEDED, FOLLOWED]),
    (KEYED, KEYED),
    (SPELLED, KEYED),
];

/// Whether of the script of an input this is printed.
fn prints(alloc: Global, text: &[&[u8]], printed: &[&[u8]]) -> Result<bool, ScriptError> {
    let mut out = Vec::new(alloc);
    print(&parsed(alloc, text)?.first, &mut out)?;
    Ok(is_joined(&out, printed)?)
}

#[test]
fn scripts_printed(rt: HostRuntime) -> Result<(), ScriptError> {
    for (text, printed) in &PRINTS {
        assert!(rt; prints(rt.alloc(), text, printed)?);
    }
    Ok(())
}

#[test]
fn printed_script_parsed(rt: HostRuntime) -> Result<(), ScriptError> {
    let first = parsed(rt.alloc(), KEYED)?.first;
    let again = parse_printed(rt.alloc(), &first)?;
    assert!(rt; again.tape.is_none());
    let mut out = Vec::new(rt.alloc());
    print(&again.first, &mut out)?;
    assert!(rt; is_joined(&out, KEYED)?);
    Ok(())
}

#[test]
fn printed_tape_parsed(rt: HostRuntime) -> Result<(), ScriptError> {
    let first = parsed(rt.alloc(), &[HEAD, FOLLOWED, TAPE])?.first;
    let bytes = [0x0f; 33];
    let tape = parse_printed_with(rt.alloc(), &first, &bytes)?.tape;
    match tape {
        Some(tape) => {
            assert!(rt; tape.got == 33 && tape.bytes.as_slice() == bytes.as_slice());
        }
        None => return Err(ScriptError::Memory),
    }
    Ok(())
}

/// 32 bytes as they are printed.
const FULL: &[u8] = b"x 0f0f0f0f0f0f0f0f0f0f0f0f0f0f0f0f0f0f0f0f0f0f0f0f0f0f0f0f0f0f0f0f\n";

/// A shape, how many full lines its tape is printed in, and the last line.
const TAPES: [([u32; 12], usize, &[u8]); 2] = [
    (
        [2, 8, 4, 4, 24, 64, 1, 0, 1, 1, 1, 1],
        2,
        b"x 0f0f0f0f0f0f0f0f0f0f0f0f0f0f0f0f0f0f\n",
    ),
    (SMALL, 8, b""),
];

/// Whether the tape of a shape is printed after another text in so many full lines and this last one.
fn prints_tape(alloc: Global, shape: &Shape, full: usize, last: &[u8]) -> Result<bool, Fail> {
    let bytes = vec![in alloc; 0x0f; shape.tape_len() as usize]?;
    let tape = Tape::from_bytes(shape, bytes).ok().ok_or("its length")?;
    let mut out = Vec::from_slice(alloc, b"talek")?;
    print_tape(&tape, &mut out)?;
    let mut wanted = Vec::from_slice(alloc, b"talektape\n")?;
    for _ in 0..full {
        wanted.extend_from_slice(FULL)?;
    }
    join(&[last, b"end\n"], &mut wanted)?;
    Ok(out.as_slice() == wanted.as_slice())
}

#[test]
fn tapes_printed(rt: HostRuntime) -> Result<(), Fail> {
    for (numbers, full, last) in &TAPES {
        let shape = Shape::new(*numbers).ok().ok_or("a shape")?;
        assert!(rt; prints_tape(rt.alloc(), &shape, *full, last)?);
    }
    Ok(())
}

/// Appends lines of all kinds.
fn push_lines(alloc: Global, out: &mut Vec<u8>) -> Result<(), Memory> {
    push_number(alloc, 7, out)?;
    push_field(alloc, u64::MAX, out)?;
    push_line(b" a", out)?;
    push_numbers(alloc, b"order", &[1, 20], out)?;
    push_numbers_line(alloc, b" log", &[], out)?;
    push_cause(alloc, &Cause::Room { room: 6 }, out)
}

#[test]
fn lines_printed(rt: HostRuntime) -> Result<(), Memory> {
    let mut out = Vec::new(rt.alloc());
    push_lines(rt.alloc(), &mut out)?;
    assert!(rt; out.as_slice() == b"7 18446744073709551615 a\norder 1 20 log\nroom 6".as_slice());
    Ok(())
}

/// Why the input of a text gives no book, if it gives none.
fn no_book(alloc: Global, parts: &[&[u8]]) -> Result<Option<BookError>, ScriptError> {
    let mut text = Vec::new(alloc);
    join(parts, &mut text)?;
    let Input { first, tape, .. } = parse(alloc, &text, Form::Run)?;
    Ok(first.book(alloc, tape).err())
}

/// The text of an input, and why it gives no book.
const BOOKS: [(Parts, Option<BookError>); 3] = [
    (KEYED, None),
    (&[HEAD, ONE, TAPE], None),
    (
        &[HEAD, ONE, b"tape\nfill 0f 257\nend"],
        Some(BookError::Tape {
            want: 256,
            got: 257,
        }),
    ),
];

#[test]
fn books_of_inputs(rt: HostRuntime) -> Result<(), ScriptError> {
    for (text, error) in &BOOKS {
        assert!(rt; no_book(rt.alloc(), text)? == *error);
    }
    Ok(())
}
