ghost use Rattle.std.specs.Prelude.{◌≡◌, ◌<◌, ◌+◌, ◌≤◌, length, IsTrue, IfOk, Some, None};
ghost use Rattle.tk_shape.specs.Lengths.{turn_count};
ghost use Rattle.tk_seal.specs.Texts.{is_allowed};
ghost use Rattle.tk_words.specs.Words.{words_of};
ghost use Rattle.tk_frames.specs.Ranges.{IsWrite};
ghost use Rattle.tk_client.specs.Writes.{write_of};

use crate::waiting::Waiting;
use std::alloc::Global;
use tk_frames::WriteFrame;
use tk_shape::{Bytes, Memory, Shape, Words};
use tk_words::Draws;

/// The write of a text: its buckets and filter positions, and the text sealed.
pub(crate) fn text_write<D: Draws>(
    alloc: Global,
    shape: &Shape,
    draws: &D,
    client: u32,
    turn: u32,
    waiting: &Waiting,
) -> Result<WriteFrame, Memory>
    requires one_shape { D.shape draws.now ≡ shape.now }
    requires client_in { client < shape.now.clients }
    requires turn_in { turn < turn_count shape.now }
    requires log_in { waiting.now.log < shape.now.logs }
    requires number_in { waiting.now.number < turn_count shape.now }
    requires fits { length waiting.now.text + 18 ≤ shape.now.block }
    requires allowed { IsTrue (is_allowed waiting.now.text) }
    ensures in_range { IfOk result (IsWrite shape.now) }
    ensures write { let words = words_of shape.now (D.book draws.now) in
        IfOk result (λ w. w ≡ write_of words turn client (Some waiting.now)) }
{
    let number = waiting.number as u32;
    let mut hits = vec![in alloc; 0u32; shape.hits as usize]?;
    let (first, second) = draws.pair_and_hits(waiting.log, number, hits.as_mut_slice());
    let mut sealed = vec![in alloc; 0u8; shape.block as usize]?;
    draws.seal(
        waiting.log,
        number,
        waiting.text.as_slice(),
        sealed.as_mut_slice(),
    );
    Ok(WriteFrame {
        client,
        turn,
        first,
        second,
        hits: Words::from_vec(hits),
        block: Bytes::from_vec(sealed),
    })
}

/// A write that holds no text.
pub(crate) fn dummy_write<D: Draws>(
    alloc: Global,
    shape: &Shape,
    draws: &D,
    client: u32,
    turn: u32,
) -> Result<WriteFrame, Memory>
    requires one_shape { D.shape draws.now ≡ shape.now }
    requires client_in { client < shape.now.clients }
    requires turn_in { turn < turn_count shape.now }
    ensures in_range { IfOk result (IsWrite shape.now) }
    ensures write { let words = words_of shape.now (D.book draws.now) in
        IfOk result (λ w. w ≡ write_of words turn client None) }
{
    let mut hits = vec![in alloc; 0u32; shape.hits as usize]?;
    let mut block = vec![in alloc; 0u8; shape.block as usize]?;
    let (first, second) = draws.fresh_write(
        client,
        turn,
        hits.as_mut_slice(),
        block.as_mut_slice(),
    );
    Ok(WriteFrame {
        client,
        turn,
        first,
        second,
        hits: Words::from_vec(hits),
        block: Bytes::from_vec(block),
    })
}
