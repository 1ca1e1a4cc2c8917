ghost use Rattle.std.specs.Prelude.{◌≡◌, ◌<◌, ◌≤◌, ◌+◌, length, take, IfOk, IsTrue};
ghost use Rattle.tk_shape.specs.Lengths.{turn_count};
ghost use Rattle.tk_seal.specs.Texts.{is_allowed};

use std::alloc::Global;
use tk_handle::Handle;
use tk_seal::allowed;
use tk_shape::{Memory, Shape};
use tk_words::{Book, DrawnDraws, Draws, KeyedDraws, LogSeeds, Tape, TapeError};

const SECRET: [u8; 32] = *b"abcdefghijklmnopqrstuvwxyz012345";

// Two servers, eight buckets, and two clients in two phases of a tick, with one log, whose blocks
// have room for six bytes.
fn small() -> Result<Shape, Memory>
    ensures servers { IfOk result (λ s. s.servers ≡ 2) }
    ensures buckets { IfOk result (λ s. s.buckets ≡ 8) }
    ensures block { IfOk result (λ s. s.block ≡ 24) }
    ensures hits { IfOk result (λ s. s.hits ≡ 1) }
    ensures clients { IfOk result (λ s. s.clients ≡ 2) }
    ensures logs { IfOk result (λ s. s.logs ≡ 1) }
    ensures format { IfOk result (λ s. s.format ≡ 1) }
    ensures turns { IfOk result (λ s. turn_count s ≡ 2) }
{
    match Shape::new([2, 8, 4, 4, 24, 64, 1, 0, 2, 2, 1, 1]) {
        Ok(shape) => Ok(shape),
        Err(_) => Err(Memory),
    }
}

// A message's log, and its number there.
#[derive(Clone, Copy)]
struct Numbered {
    log: u32,
    number: u32,
}

// Seals a text and opens the block again: there is always a text, and always this one.
fn there_and_back<D: Draws>(
    draws: &D,
    at: Numbered,
    text: &[u8],
    block: &mut [u8],
    out: &mut [u8],
) -> usize
    requires log_in { at.log < (D.shape draws.now).logs }
    requires number_in { at.number < turn_count (D.shape draws.now) }
    requires block_room { length block.old ≡ (D.shape draws.now).block }
    requires out_room { length out.old + 18 ≡ (D.shape draws.now).block }
    requires allowed { IsTrue (is_allowed text.now) }
    requires fits { length text.now + 18 ≤ (D.shape draws.now).block }
    ensures { take result out.new ≡ text.now }
{
    let Numbered { log, number } = at;
    draws.seal(log, number, text, block);
    match draws.open(log, number, block, out) {
        Some(len) => len,
        None => unreachable!(),
    }
}

// What a book of the small shape gives for number 1 of log 0, and for client 1 in turn 1.
#[derive(Clone, Copy)]
struct Given {
    pair: (u32, u32),
    hits: [u32; 1],
    sealed: [u8; 24],
    write_pair: (u32, u32),
    write_hits: [u32; 1],
    block: [u8; 24],
    read_pair: (u32, u32),
    vectors: [u8; 2],
}

// Whether a book gives number 1 of log 0 its buckets and filter position.
fn gives_number<D: Draws>(draws: &D, given: &Given) -> bool
    requires logs { (D.shape draws.now).logs ≡ 1 }
    requires turns { turn_count (D.shape draws.now) ≡ 2 }
    requires hits { (D.shape draws.now).hits ≡ 1 }
{
    let mut hits = [9; 1];
    draws.hits(0, 1, &mut hits);
    let mut same = [9; 1];
    let pair = draws.pair_and_hits(0, 1, &mut same);
    hits == given.hits && same == hits && draws.pair(0, 1) == given.pair && pair == given.pair
}

// Whether a text is sealed for that number to the block, and no other block opens.
fn gives_sealed<D: Draws>(draws: &D, given: &Given) -> bool
    requires logs { (D.shape draws.now).logs ≡ 1 }
    requires turns { turn_count (D.shape draws.now) ≡ 2 }
    requires block { (D.shape draws.now).block ≡ 24 }
{
    let text = b"hi";
    if allowed(text).is_some() {
        return false;
    }
    let mut block = [9; 24];
    let mut out = [9; 6];
    let first = Numbered { log: 0, number: 1 };
    let len = there_and_back(draws, first, text, &mut block, &mut out);
    if len != 2 || block != given.sealed || out != [0x68, 0x69, 0, 0, 0, 0] {
        return false;
    }
    block[20] ^= 1;
    draws.open(0, 1, &block, &mut out).is_none() && out == [0; 6]
}

// Whether client 1 writes and reads so in turn 1 where it has nothing to write or to read.
fn gives_fresh<D: Draws>(draws: &D, given: &Given) -> bool
    requires format { (D.shape draws.now).format ≡ 1 }
    requires servers { (D.shape draws.now).servers ≡ 2 }
    requires buckets { (D.shape draws.now).buckets ≡ 8 }
    requires clients { (D.shape draws.now).clients ≡ 2 }
    requires turns { turn_count (D.shape draws.now) ≡ 2 }
    requires hits { (D.shape draws.now).hits ≡ 1 }
    requires block { (D.shape draws.now).block ≡ 24 }
{
    let mut hits = [9; 1];
    let mut block = [9; 24];
    let pair = draws.fresh_write(1, 1, &mut hits, &mut block);
    if pair != given.write_pair || hits != given.write_hits || block != given.block {
        return false;
    }
    let mut seeds = [0; 0];
    let mut vectors = [9; 2];
    let pair = draws.fresh_read(1, 1, &mut seeds, &mut vectors);
    pair == given.read_pair && vectors == given.vectors
}

// The cells of a tape, those of the writes of both turns, those of the reads and those of the
// numbers. All but one have one byte throughout; the last read's has two words and the drawn
// vectors of one server.
const CELLS: [&[u8]; 10] = [
    &[0x11; 36],
    &[0x12; 36],
    &[0x13; 36],
    &[0x14; 36],
    &[0x21; 10],
    &[0x22; 10],
    &[0x23; 10],
    &[0, 0, 0, 3, 0, 0, 0, 0x0b, 0x21, 0x22],
    &[0x31; 36],
    &[0x32; 36],
];

fn cells(alloc: Global) -> Result<Vec<u8>, Memory> {
    let mut bytes = Vec::new(alloc);
    for cell in CELLS {
        bytes.extend_from_slice(cell)?;
    }
    Ok(bytes)
}

// The words of that tape.
fn drawn(alloc: Global, shape: &Shape) -> Result<DrawnDraws, Memory>
    ensures { IfOk result (λ draws. ⟦<DrawnDraws as Draws>⟧.shape draws ≡ shape.now) }
{
    match Tape::from_bytes(shape, cells(alloc)?) {
        Ok(tape) => Ok(DrawnDraws::new(shape, tape)),
        Err(_) => Err(Memory),
    }
}

const OF_TAPE: Given = Given {
    pair: (2, 2),
    hits: [50],
    sealed: [
        0x32, 0x30, 0x5a, 0x5b, 0x32, 0x32, 0x32, 0x32, 0x32, 0x32, 0x32, 0x32, 0x32, 0x32, 0x32,
        0x32, 0x32, 0x32, 0x32, 0x32, 0x32, 0x32, 0x32, 0x32,
    ],
    write_pair: (4, 4),
    write_hits: [20],
    block: [0x14; 24],
    read_pair: (3, 3),
    vectors: [0x21, 0x22],
};

#[test]
fn words_of_a_tape(rt: HostRuntime) -> Result<(), Memory> {
    let draws = drawn(rt.alloc(), &small()?)?;
    assert!(rt; gives_number(&draws, &OF_TAPE));
    assert!(rt; gives_sealed(&draws, &OF_TAPE));
    assert!(rt; gives_fresh(&draws, &OF_TAPE));
    assert!(rt; draws.log_seeds(0).is_none());
    assert!(rt; matches!(&Book::Drawn(draws), Book::Drawn(_)));
    Ok(())
}

#[test]
fn words_of_another_cell(rt: HostRuntime) -> Result<(), Memory> {
    let draws = drawn(rt.alloc(), &small()?)?;
    let mut hits = [9; 1];
    let mut block = [9; 24];
    assert!(rt; draws.fresh_write(1, 0, &mut hits, &mut block) == (2, 2));
    assert!(rt; hits == [18] && block == [0x12; 24]);
    Ok(())
}

const OF_KEYS: Given = Given {
    pair: (4, 4),
    hits: [0],
    sealed: [
        0x12, 0x9b, 0xa4, 0x24, 0x4f, 0x09, 0xb0, 0xd2, 0xcd, 0x1a, 0x01, 0x74, 0x3c, 0x95, 0xc0,
        0x51, 0xf1, 0x6b, 0xb7, 0x8c, 0x1e, 0xca, 0x0c, 0x40,
    ],
    write_pair: (6, 6),
    write_hits: [22],
    block: [
        0x14, 0x0f, 0x6d, 0x1d, 0x06, 0xa4, 0xa1, 0x07, 0x8f, 0x89, 0xa9, 0xf1, 0xfb, 0x2e, 0xc3,
        0xdc, 0x71, 0xdb, 0x71, 0x80, 0xdb, 0x26, 0x6f, 0xc4,
    ],
    read_pair: (3, 2),
    vectors: [0x18, 0x94],
};

#[test]
fn words_of_keys(rt: HostRuntime) -> Result<(), Memory> {
    let handles = vec![in rt.alloc(); Handle::from_root(7, &SECRET)]?;
    let seeds = vec![in rt.alloc(); [0; 32], SECRET]?;
    let draws = KeyedDraws::new(&small()?, handles, seeds);
    assert!(rt; gives_number(&draws, &OF_KEYS));
    assert!(rt; gives_sealed(&draws, &OF_KEYS));
    assert!(rt; gives_fresh(&draws, &OF_KEYS));
    let handle = Handle::from_root(7, &SECRET);
    let seeds = LogSeeds {
        first: handle.seed1,
        second: handle.seed2,
    };
    assert!(rt; draws.log_seeds(0) == Some(seeds));
    assert!(rt; matches!(&Book::Keyed(draws), Book::Keyed(_)));
    Ok(())
}

#[test]
fn a_tape_of_another_length(rt: HostRuntime) -> Result<(), Memory> {
    let shape = small()?;
    let mut bytes = match Tape::from_bytes(&shape, cells(rt.alloc())?) {
        Ok(tape) => Vec::from_slice(rt.alloc(), tape.as_bytes())?,
        Err(_) => return Err(Memory),
    };
    bytes.push(0)?;
    let error = TapeError {
        want: 256,
        got: 257,
    };
    assert!(rt; Tape::from_bytes(&shape, bytes).err() == Some(error));
    Ok(())
}
