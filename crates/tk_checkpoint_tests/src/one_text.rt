//! The entries of a run of two clients over two turns, in which the first says `hi` in the first turn, as a tape of
//! drawn words makes them.
ghost use Rattle.std.specs.Prelude.{◌≡◌, IfOk};

use std::alloc::Global;
use std::test::Fail;
use tk_frames::{Entry, WriteFrame};
use tk_seal::allowed;
use tk_shape::{Bytes, Shape, Words};
use tk_words::{DrawnDraws, Draws, Tape};

/// The tape: the words of four writes that hold no text, those of four reads, and those of two numbers of the log.
const TAPE: [(u8, u32); 10] = [
    (0x11, 36),
    (0x12, 36),
    (0x13, 36),
    (0x14, 36),
    (0x21, 10),
    (0x22, 10),
    (0x23, 10),
    (0x24, 10),
    (0x31, 36),
    (0x32, 36),
];

fn draws(alloc: Global, shape: &Shape) -> Result<DrawnDraws, Fail>
    ensures { IfOk result (λ draws. ⟦<DrawnDraws as Draws>⟧.shape draws ≡ shape.now) }
{
    let mut bytes = Vec::new(alloc);
    for (byte, count) in TAPE {
        for _ in 0..count {
            bytes.push(byte)?;
        }
    }
    let tape = Tape::from_bytes(shape, bytes).ok().ok_or("a tape")?;
    Ok(DrawnDraws::new(shape, tape))
}

/// The write of a client in a turn: that of `hi` as number 0 of log 0, or one that holds no text.
fn write(
    alloc: Global,
    shape: &Shape,
    draws: &DrawnDraws,
    client: u32,
    turn: u32,
) -> Result<Entry, Fail>
    requires { ⟦<DrawnDraws as Draws>⟧.shape draws.now ≡ shape.now }
{
    if client >= shape.clients || turn >= shape.turns() || shape.logs < 1 || shape.block < 20 {
        return Err("a write".into());
    }
    let mut hits = vec![in alloc; 0u32; shape.hits as usize]?;
    let mut block = vec![in alloc; 0u8; shape.block as usize]?;
    let (first, second) = if client == 0 && turn == 0 {
        let text = b"hi";
        if allowed(text).is_some() {
            return Err("a text".into());
        }
        draws.seal(0, 0, text, block.as_mut_slice());
        draws.pair_and_hits(0, 0, hits.as_mut_slice())
    } else {
        draws.fresh_write(client, turn, hits.as_mut_slice(), block.as_mut_slice())
    };
    Ok(Entry::Write(WriteFrame {
        client,
        turn,
        first,
        second,
        hits: Words::from_vec(hits),
        block: Bytes::from_vec(block),
    }))
}

/// All entries: in each turn the writes of both clients, and a mark.
pub(crate) fn entries(alloc: Global, shape: &Shape) -> Result<Vec<Entry>, Fail> {
    let draws = draws(alloc, shape)?;
    let mut all = Vec::new(alloc);
    for turn in 0..2 {
        for client in 0..2 {
            all.push(write(alloc, shape, &draws, client, turn)?)?;
        }
        all.push(Entry::Mark(turn + 1))?;
    }
    Ok(all)
}
