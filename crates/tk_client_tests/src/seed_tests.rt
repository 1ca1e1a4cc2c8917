//! Reads of format 2, which tell most servers their vectors by seeds.
ghost use Rattle.std.specs.Prelude.{◌≡◌, ◌<◌, IfOk};
ghost use Rattle.tk_shape.specs.Lengths.{turn_count};

use std::alloc::Global;
use tk_bloom::{Filter, Window};
use tk_client::Client;
use tk_handle::Handle;
use tk_shape::{Memory, Shape};
use tk_words::{DrawnDraws, Draws, KeyedDraws, Tape};

/// The parts of a text, one after the other.
type Parts = &'static [&'static [u8]];

/// Appends the parts of a text.
fn join(parts: &[&[u8]], text: &mut Vec<u8>) -> Result<(), Memory> {
    for part in parts {
        text.extend_from_slice(part)?;
    }
    Ok(())
}

/// Two servers, eight buckets, two clients and two turns, in format 2.
fn small() -> Result<Shape, Memory>
    ensures format { IfOk result (λ s. s.format ≡ 2) }
    ensures servers { IfOk result (λ s. s.servers ≡ 2) }
    ensures buckets { IfOk result (λ s. s.buckets ≡ 8) }
    ensures clients { IfOk result (λ s. s.clients ≡ 2) }
    ensures logs { IfOk result (λ s. s.logs ≡ 1) }
    ensures turns { IfOk result (λ s. turn_count s ≡ 2) }
{
    match Shape::of(2, [2, 8, 4, 4, 24, 64, 1, 0, 2, 2, 1, 1]) {
        Ok(shape) => Ok(shape),
        Err(_) => Err(Memory),
    }
}

/// Three servers, sixteen buckets, two clients and two turns, in format 2.
fn wide() -> Result<Shape, Memory>
    ensures format { IfOk result (λ s. s.format ≡ 2) }
    ensures servers { IfOk result (λ s. s.servers ≡ 3) }
    ensures buckets { IfOk result (λ s. s.buckets ≡ 16) }
    ensures clients { IfOk result (λ s. s.clients ≡ 2) }
    ensures logs { IfOk result (λ s. s.logs ≡ 1) }
    ensures turns { IfOk result (λ s. turn_count s ≡ 2) }
{
    match Shape::of(2, [3, 16, 4, 4, 24, 64, 1, 0, 2, 2, 1, 1]) {
        Ok(shape) => Ok(shape),
        Err(_) => Err(Memory),
    }
}

/// A filter that shows nothing.
fn shows_nothing(alloc: Global) -> Result<Filter, Memory> {
    let Ok(window) = Window::open(alloc, 64, 1, 4) else {
        return Err(Memory);
    };
    match window.filter(alloc) {
        Ok(filter) => Ok(filter),
        Err(_) => Err(Memory),
    }
}

/// Whether these are the frames of a client's dummy read over epoch 0.
fn asks<D: Draws>(
    alloc: Global,
    shape: &Shape,
    draws: &D,
    client: u32,
    turn: u32,
    wanted: &[Parts],
) -> Result<bool, Memory>
    requires one_shape { D.shape draws.now ≡ shape.now }
    requires client_in { client < shape.now.clients }
    requires turn_in { turn < turn_count shape.now }
{
    let mut client = Client::open(alloc, shape, client, &[], &[])?;
    let filter = shows_nothing(alloc)?;
    let mut frames = Vec::new(alloc);
    client.read_frames(alloc, draws, turn, 0, &filter, &mut frames)?;
    for (frame, parts) in frames.iter().zip(wanted) {
        let mut bytes = Vec::new(alloc);
        join(parts, &mut bytes)?;
        if frame.as_slice() != bytes.as_slice() {
            return Ok(false);
        }
    }
    Ok(frames.len() == wanted.len())
}

/// A tape whose read cell of client 0 in turn 0 has two words, and a seed and a vector for either
/// bucket.
const TAPE: Parts = &[
    &[0x11; 144],
    b"\0\0\0\x03\0\0\0\x0b",
    &[0x41; 32],
    b"\x21",
    &[0x42; 32],
    b"\x22",
    &[0x12; 294],
];

/// The frames of that read.
const SHOWN: [Parts; 2] = [
    &[b"\x07\x01", &[0; 12], &[0x41; 32], &[0x42; 32], b"\x21\x22"],
    &[b"\x02\x01", &[0; 12], b"\x29\x2a"],
];

#[test]
fn a_read_cell_is_shown_with_its_seeds(rt: HostRuntime) -> Result<(), Memory> {
    let alloc = rt.alloc();
    let shape = small()?;
    let mut bytes = Vec::new(alloc);
    join(TAPE, &mut bytes)?;
    let Ok(tape) = Tape::from_bytes(&shape, bytes) else {
        return Err(Memory);
    };
    let draws = DrawnDraws::new(&shape, tape);
    let mut seeds = [0; 64];
    let mut vectors = [0; 2];
    assert!(rt; draws.fresh_read(0, 0, &mut seeds, &mut vectors) == (3, 3));
    let mut wanted = [0x41; 64];
    wanted[32..].fill(0x42);
    assert!(rt; seeds == wanted);
    assert!(rt; vectors == [0x21, 0x22] && draws.shows());
    assert!(rt; asks(alloc, &shape, &draws, 0, 0, &SHOWN)?);
    Ok(())
}

const SECRET: [u8; 32] = *b"abcdefghijklmnopqrstuvwxyz012345";

/// The words from place 16 on of stream 3 under that key: two seeds for the first bucket, and two
/// for the second.
const SEEDS: Parts = &[SEED_A, SEED_B, SEED_C, SEED_D];

const SEED_A: &[u8] = &[
    0x18, 0x94, 0xa5, 0xda, 0xda, 0xc5, 0x71, 0x2d, 0x56, 0x46, 0xa6, 0x9b, 0xf6, 0x36, 0x37, 0xa7,
    0x33, 0xb1, 0xa7, 0x08, 0x64, 0xf6, 0xa9, 0x30, 0xd1, 0x96, 0xf4, 0x93, 0x1c, 0x31, 0x8c, 0x75,
];

const SEED_B: &[u8] = &[
    0x85, 0x1a, 0x24, 0xf4, 0xfd, 0x56, 0x0f, 0x09, 0xa8, 0x80, 0x19, 0x1f, 0xba, 0x0b, 0x2d, 0x96,
    0xf5, 0xd5, 0x3f, 0xf8, 0xaf, 0x2d, 0xd3, 0x7d, 0x49, 0x64, 0xc3, 0xd9, 0xc9, 0x69, 0x11, 0xdd,
];

const SEED_C: &[u8] = &[
    0x6d, 0x5f, 0xe7, 0x64, 0x42, 0xc2, 0xdd, 0x2e, 0x83, 0x3d, 0x13, 0x05, 0xd3, 0xae, 0xdf, 0xa3,
    0xc8, 0x41, 0x2a, 0x93, 0x62, 0x86, 0x86, 0x69, 0x42, 0x2c, 0x47, 0x4f, 0x7f, 0x21, 0xc1, 0x63,
];

const SEED_D: &[u8] = &[
    0x96, 0xa9, 0x3e, 0xa3, 0x89, 0x91, 0xf0, 0x09, 0x42, 0xf8, 0x33, 0x9b, 0xfc, 0x47, 0xd3, 0x9f,
    0x32, 0xde, 0x81, 0x2b, 0xbb, 0x91, 0x40, 0x99, 0xcc, 0x24, 0x88, 0x0f, 0xe6, 0xdf, 0x93, 0x68,
];

/// What they expand to in two bytes each.
const VECTORS: [u8; 8] = [0xf6, 0x72, 0x5b, 0x58, 0xe7, 0x0b, 0xae, 0x24];

/// Client 1 in turn 1, over epoch 0.
const ASKER: &[u8] = b"\0\0\0\x01\0\0\0\x01\0\0\0\0";

/// The frames of the read by that key for buckets 3 and 2.
const SEEDED: [Parts; 3] = [
    &[b"\x06\x01", ASKER, SEED_A, SEED_C],
    &[b"\x06\x01", ASKER, SEED_B, SEED_D],
    &[b"\x02\x01", ASKER, b"\xa5\x2a\x4d\x2f"],
];

#[test]
fn a_keyed_read_expands_its_seeds(rt: HostRuntime) -> Result<(), Memory> {
    let alloc = rt.alloc();
    let shape = wide()?;
    let handles = vec![in alloc; Handle::from_root(7, &SECRET)]?;
    let client_seeds = vec![in alloc; [0; 32], SECRET]?;
    let draws = KeyedDraws::new(&shape, handles, client_seeds);
    let mut seeds = [0; 128];
    let mut vectors = [0; 8];
    assert!(rt; draws.fresh_read(1, 1, &mut seeds, &mut vectors) == (3, 2));
    let mut wanted = Vec::new(alloc);
    join(SEEDS, &mut wanted)?;
    assert!(rt; seeds.as_slice() == wanted.as_slice() && vectors == VECTORS && !draws.shows());
    assert!(rt; asks(alloc, &shape, &draws, 1, 1, &SEEDED)?);
    Ok(())
}
