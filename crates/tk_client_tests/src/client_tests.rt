ghost use Rattle.std.specs.Prelude.{◌≡◌, ◌<◌, ◌≤◌, [], ◌∷◌, None, IsSome, IfOk, OnOk};
ghost use Rattle.std.specs.Option.{ForSome};
ghost use Rattle.tk_shape.specs.Lengths.{turn_count};
ghost use Rattle.tk_client.specs.Writing.{new_writing, first_waiting, after_write};

use std::alloc::Global;
use tk_bloom::{Filter, Window};
use tk_client::{Client, Got, SayError, TakeError};
use tk_frames::{FrameError, encode_write};
use tk_seal::allowed;
use tk_shape::{Bytes, Memory, Shape};
use tk_words::{DrawnDraws, Draws, Tape};

/// Two servers, eight buckets of four slots, two clients, two turns and one log, whose blocks have
/// room for six bytes, and that reads two numbers ahead.
fn small() -> Result<Shape, Memory>
    ensures servers { IfOk result (λ s. s.servers ≡ 2) }
    ensures clients { IfOk result (λ s. s.clients ≡ 2) }
    ensures logs { IfOk result (λ s. s.logs ≡ 1) }
    ensures phases { IfOk result (λ s. s.phases ≡ 2) }
    ensures turns { IfOk result (λ s. turn_count s ≡ 2) }
{
    match Shape::new([2, 8, 4, 4, 24, 64, 1, 2, 2, 2, 1, 1]) {
        Ok(shape) => Ok(shape),
        Err(_) => Err(Memory),
    }
}

/// A book whose tape has one byte throughout, so that all numbers have bucket 7 twice, and filter
/// position 7, and a text is sealed by the exclusive or with that byte.
fn book(alloc: Global, shape: &Shape) -> Result<DrawnDraws, Memory>
    ensures { IfOk result (λ draws. ⟦<DrawnDraws as Draws>⟧.shape draws ≡ shape.now) }
{
    let bytes = vec![in alloc; 7u8; shape.tape_len() as usize]?;
    match Tape::from_bytes(shape, bytes) {
        Ok(tape) => Ok(DrawnDraws::new(shape, tape)),
        Err(_) => Err(Memory),
    }
}

/// A filter that shows all numbers of the book.
fn shows_all(alloc: Global) -> Result<Filter, Memory> {
    let Ok(mut window) = Window::open(alloc, 64, 1, 4) else {
        return Err(Memory);
    };
    window.push(&[7]);
    match window.filter(alloc) {
        Ok(filter) => Ok(filter),
        Err(_) => Err(Memory),
    }
}

/// The frames of the read of client 1 in turn 0 over epoch 1. The second server gets what joins to
/// bucket 7.
const ASKING: [&[u8]; 2] = [
    b"\x02\x01\0\0\0\x01\0\0\0\0\0\0\0\x01\x07\x07",
    b"\x02\x01\0\0\0\x01\0\0\0\0\0\0\0\x01\x87\x87",
];

/// Asks for client 1 in turn 0 over epoch 1.
fn ask(alloc: Global, client: &mut Client, draws: &DrawnDraws) -> Result<(), Memory>
    requires one_shape { ⟦<DrawnDraws as Draws>⟧.shape draws.now ≡ client.old.shape }
    requires closed { client.old.read ≡ None }
    requires turn_in { 0 < turn_count client.old.shape }
    requires epoch_in { 1 ≤ client.old.shape.phases }
    ensures open { OnOk result (IsSome client.new.read) }
    ensures shape { OnOk result (client.new.shape ≡ client.old.shape) }
{
    let filter = shows_all(alloc)?;
    let mut frames = Vec::new(alloc);
    client.read_frames(alloc, draws, 0, 1, &filter, &mut frames)?;
    match frames.as_slice() {
        [one, other] if one.as_slice() == ASKING[0] && other.as_slice() == ASKING[1] => Ok(()),
        _ => Err(Memory),
    }
}

/// The front of a reply to that read, and the length of the whole reply.
const ASKED: &[u8] = b"\x03\x01\0\0\0\x01\0\0\0\0\0\0\0\x01";

const WHOLE: usize = 334;

/// A reply of empty buckets that begins so.
fn silent(alloc: Global, front: &[u8], len: usize) -> Result<Bytes, Memory> {
    let mut bytes = Vec::from_slice(alloc, front)?;
    bytes.resize(len, 0)?;
    Ok(Bytes::from_vec(bytes))
}

/// The fronts of both servers' replies, the length of the second, and why they are refused.
type Refused = ([&'static [u8]; 2], usize, TakeError);

/// Replies for another client, another turn and another epoch, and one that is cut.
const REFUSED: [Refused; 4] = [
    (
        [ASKED, b"\x03\x01\0\0\0\0\0\0\0\x01\0\0\0\x02"],
        WHOLE,
        TakeError::Named {
            server: 2,
            want: 1,
            got: 0,
        },
    ),
    (
        [ASKED, b"\x03\x01\0\0\0\x01\0\0\0\x01\0\0\0\x02"],
        WHOLE,
        TakeError::Named {
            server: 2,
            want: 0,
            got: 1,
        },
    ),
    (
        [ASKED, b"\x03\x01\0\0\0\x01\0\0\0\0\0\0\0\x02"],
        WHOLE,
        TakeError::Named {
            server: 2,
            want: 1,
            got: 2,
        },
    ),
    (
        [b"\x03\x01\0\0\0\x01\0\0\0\0\0\0\0\x02", ASKED],
        333,
        TakeError::Frame {
            server: 2,
            error: FrameError::Length {
                want: 334,
                got: 333,
            },
        },
    ),
];

/// Hands the client replies that it has to refuse.
fn refuse(
    alloc: Global,
    client: &mut Client,
    draws: &DrawnDraws,
    case: &Refused,
) -> Result<(), Memory>
    requires one_shape { ⟦<DrawnDraws as Draws>⟧.shape draws.now ≡ client.old.shape }
    requires open { IsSome client.old.read }
    requires servers { client.old.shape.servers ≡ 2 }
    ensures { OnOk result (client.new ≡ client.old) }
{
    let ([first, second], len, error) = *case;
    let first = silent(alloc, first, WHOLE)?;
    let second = silent(alloc, second, len)?;
    let replies = vec![in alloc; first, second]?;
    match client.take_replies(alloc, draws, replies.as_slice()) {
        Err(got) if got == error => Ok(()),
        _ => Err(Memory),
    }
}

/// Hands the client the right replies, of which the first is this one.
fn take(alloc: Global, client: &mut Client, draws: &DrawnDraws, first: Bytes) -> Result<(), Memory>
    requires one_shape { ⟦<DrawnDraws as Draws>⟧.shape draws.now ≡ client.old.shape }
    requires open { IsSome client.old.read }
    requires servers { client.old.shape.servers ≡ 2 }
    ensures closed { OnOk result (client.new.read ≡ None) }
    ensures shape { OnOk result (client.new.shape ≡ client.old.shape) }
{
    let second = silent(alloc, ASKED, WHOLE)?;
    let replies = vec![in alloc; first, second]?;
    match client.take_replies(alloc, draws, replies.as_slice()) {
        Ok(()) => Ok(()),
        Err(_) => Err(Memory),
    }
}

/// The slots at position 5 of the texts `hi` and `ho`, which are number 1.
const HI: &[u8] =
    b"\0\0\0\0\0\0\0\x05\0\0\0\x07\0\0\0\x07\x07\x05\x6f\x6e\x07\x07\x07\x07\x07\x07\x07\x07\x07\x07\x07\x07\x07\x07\x07\x07\x07\x07\x07\x07";

const HO: &[u8] =
    b"\0\0\0\0\0\0\0\x05\0\0\0\x07\0\0\0\x07\x07\x05\x6f\x68\x07\x07\x07\x07\x07\x07\x07\x07\x07\x07\x07\x07\x07\x07\x07\x07\x07\x07\x07\x07";

/// A reply whose buckets begin with those slots.
fn of_equal_positions(alloc: Global) -> Result<Bytes, Memory> {
    let mut bytes = Vec::from_slice(alloc, ASKED)?;
    bytes.extend_from_slice(HI)?;
    bytes.resize(174, 0)?;
    bytes.extend_from_slice(HO)?;
    bytes.resize(WHOLE, 0)?;
    Ok(Bytes::from_vec(bytes))
}

/// Whether a log gave nothing for number 0, and this text for number 1.
fn gave(log: &[Got], text: &[u8]) -> bool {
    match log {
        [Got::Absent, Got::Text(given)] => given.as_slice() == text,
        _ => false,
    }
}

/// Asks, and hands the client all that it has to refuse and then a reply without a text. It got
/// nothing then.
fn refuse_all(alloc: Global, client: &mut Client, draws: &DrawnDraws) -> Result<(), Memory>
    requires one_shape { ⟦<DrawnDraws as Draws>⟧.shape draws.now ≡ client.old.shape }
    requires closed { client.old.read ≡ None }
    requires turn_in { 0 < turn_count client.old.shape }
    requires epoch_in { 1 ≤ client.old.shape.phases }
    requires servers { client.old.shape.servers ≡ 2 }
    ensures closed { OnOk result (client.new.read ≡ None) }
    ensures shape { OnOk result (client.new.shape ≡ client.old.shape) }
{
    ask(alloc, client, draws)?;
    for case in &REFUSED {
        refuse(alloc, client, draws, case)?;
    }
    take(alloc, client, draws, silent(alloc, ASKED, WHOLE)?)?;
    if !client.log(0).is_empty() || !client.log(1).is_empty() {
        return Err(Memory);
    }
    Ok(())
}

#[test]
fn own_replies_alone_are_taken_and_of_equal_positions_the_first(
    rt: HostRuntime,
) -> Result<(), Memory> {
    let alloc = rt.alloc();
    let shape = small()?;
    let draws = book(alloc, &shape)?;
    let mut client = Client::open(alloc, &shape, 1, &[0], &[0])?;
    refuse_all(alloc, &mut client, &draws)?;
    ask(alloc, &mut client, &draws)?;
    take(alloc, &mut client, &draws, of_equal_positions(alloc)?)?;
    assert!(rt; gave(client.log(0), b"hi"));
    Ok(())
}

/// Writes for client 1 in turn 1, and compares the frame.
fn write(alloc: Global, client: &mut Client, draws: &DrawnDraws, frame: &[u8]) -> Result<(), Memory>
    requires one_shape { ⟦<DrawnDraws as Draws>⟧.shape draws.now ≡ client.old.shape }
    requires turn_in { 1 < turn_count client.old.shape }
    requires number_in { ForSome (first_waiting client.old.writing)
        (λ y. y.number < turn_count client.old.shape) }
    ensures { OnOk result
        (client.new ≡ record client.old { writing = after_write client.old.writing }) }
{
    let mut out = Vec::new(alloc);
    client.write_frame(alloc, draws, 1, &mut out)?;
    if out.as_slice() != frame {
        return Err(Memory);
    }
    Ok(())
}

/// Says the text `hi` for client 1, which writes log 0, and writes it.
fn say_and_write(alloc: Global, client: &mut Client, draws: &DrawnDraws) -> Result<(), Memory>
    requires one_shape { ⟦<DrawnDraws as Draws>⟧.shape draws.now ≡ client.old.shape }
    requires turn_in { 1 < turn_count client.old.shape }
    requires fresh { client.old.writing ≡ new_writing (0 ∷ []) }
    ensures none_waits { OnOk result (client.new.writing.waiting ≡ []) }
    ensures shape { OnOk result (client.new.shape ≡ client.old.shape) }
{
    if client.say(alloc, 0, b"hi").is_err() {
        return Err(Memory);
    }
    write(alloc, client, draws, OF_HI)
}

/// Writes for client 1 in turn 1 without a frame, and compares what its frame would be.
fn write_unspelled(
    alloc: Global,
    client: &mut Client,
    draws: &DrawnDraws,
    frame: &[u8],
) -> Result<(), Memory>
    requires one_shape { ⟦<DrawnDraws as Draws>⟧.shape draws.now ≡ client.old.shape }
    requires turn_in { 1 < turn_count client.old.shape }
    requires number_in { ForSome (first_waiting client.old.writing)
        (λ y. y.number < turn_count client.old.shape) }
    ensures { OnOk result
        (client.new ≡ record client.old { writing = after_write client.old.writing }) }
{
    let write = client.write(alloc, draws, 1)?;
    let mut out = Vec::new(alloc);
    encode_write(&write, &mut out)?;
    if out.as_slice() != frame {
        return Err(Memory);
    }
    Ok(())
}

/// The frames of the writes of client 1 in turn 1, of the text `hi` and of what is drawn.
const OF_HI: &[u8] =
    b"\x01\x01\0\0\0\x01\0\0\0\x01\0\0\0\x07\0\0\0\x07\0\0\0\x07\x07\x05\x6f\x6e\x07\x07\x07\x07\x07\x07\x07\x07\x07\x07\x07\x07\x07\x07\x07\x07\x07\x07\x07\x07";

const DRAWN: &[u8] =
    b"\x01\x01\0\0\0\x01\0\0\0\x01\0\0\0\x07\0\0\0\x07\0\0\0\x07\x07\x07\x07\x07\x07\x07\x07\x07\x07\x07\x07\x07\x07\x07\x07\x07\x07\x07\x07\x07\x07\x07\x07\x07";

#[test]
fn a_text_is_written_once_and_then_what_is_drawn(rt: HostRuntime) -> Result<(), Memory> {
    let alloc = rt.alloc();
    let shape = small()?;
    let draws = book(alloc, &shape)?;
    let mut client = Client::open(alloc, &shape, 1, &[0], &[])?;
    assert!(rt; client.number() == 1 && client.shape().logs == 1);
    say_and_write(alloc, &mut client, &draws)?;
    write(alloc, &mut client, &draws, DRAWN)
}

#[test]
fn a_text_is_written_without_a_frame(rt: HostRuntime) -> Result<(), Memory> {
    let alloc = rt.alloc();
    let shape = small()?;
    let draws = book(alloc, &shape)?;
    let mut silent = Client::open(alloc, &shape, 1, &[0], &[])?;
    write_unspelled(alloc, &mut silent, &draws, DRAWN)?;
    let mut client = Client::open(alloc, &shape, 1, &[0], &[])?;
    assert!(rt; client.say(alloc, 0, b"hi").is_ok());
    write_unspelled(alloc, &mut client, &draws, OF_HI)
}

#[test]
fn an_allowed_text_is_written_too(rt: HostRuntime) -> Result<(), Memory> {
    let alloc = rt.alloc();
    let shape = small()?;
    let draws = book(alloc, &shape)?;
    let mut client = Client::open(alloc, &shape, 1, &[0], &[])?;
    assert!(rt; allowed(b"hi").is_none());
    assert!(rt; client.say_allowed(alloc, 1, b"hi") == Err(SayError::NotWriter { log: 1 }));
    assert!(rt; client.say_allowed(alloc, 0, b"hi").is_ok());
    write(alloc, &mut client, &draws, OF_HI)
}

/// A log, what is said on it, and why that is refused.
const REFUSED_TEXTS: [(u32, &[u8], SayError); 5] = [
    (1, b"seven\x07 bytes", SayError::NotWriter { log: 1 }),
    (0, b"seven\x07!", SayError::TooLong { room: 6 }),
    (
        0,
        b"\xc3\xa9\xc3\xa9\xc3\xa9\xc3\xa9",
        SayError::TooLong { room: 6 },
    ),
    (0, b"a\x01b", SayError::Text { at: 1 }),
    (0, b"bell\x07", SayError::Text { at: 4 }),
];

/// Whether the client refuses those texts.
fn refuses(alloc: Global, client: &mut Client) -> bool {
    for (log, text, error) in &REFUSED_TEXTS {
        if client.say(alloc, *log, text) != Err(*error) {
            return false;
        }
    }
    true
}

/// Says a text so often.
fn say_often(alloc: Global, client: &mut Client, count: u32) -> Result<(), SayError> {
    for _ in 0..count {
        client.say(alloc, 0, b"hi")?;
    }
    Ok(())
}

#[test]
fn texts_are_refused_or_wait_more_than_a_byte_counts(rt: HostRuntime) -> Result<(), Memory> {
    let alloc = rt.alloc();
    let mut client = Client::open(alloc, &small()?, 1, &[0], &[])?;
    assert!(rt; refuses(alloc, &mut client));
    assert!(rt; say_often(alloc, &mut client, 300).is_ok());
    assert!(rt; client.unsent() == 300);
    Ok(())
}
