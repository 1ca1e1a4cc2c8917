ghost use Rattle.std.specs.Prelude.{◌≡◌, ◌+◌, ◌<◌, ◌++◌, length, filter_map, IfOk};
ghost use Rattle.std.specs.Option.{option_map};
ghost use Rattle.tk_shape.specs.Lengths.{turn_count, slot_len, width};
ghost use Rattle.tk_words.specs.Words.{words_of, opened};
ghost use Rattle.tk_frames.specs.Slots.{slot_from, slots_in, accepted, earliest, text_among};
ghost use Rattle.tk_client.specs.Taken.{earlier_of_both};

use crate::pairs::{KeptPair, pair_of_target};
use crate::target::Target;
use std::alloc::Global;
use tk_frames::{u32_at, u64_at};
use tk_shape::{Bytes, Memory, Shape};
use tk_words::Draws;

/// A number of a log, and its pair of buckets.
#[derive(Clone, Copy, Debug)]
pub(crate) struct Wanted {
    pub log: u32,
    pub number: u32,
    pub pair: (u32, u32),
}

/// The position that stands in a slot that is accepted, and its text.
type Accepted = (u64, Bytes);

/// What a read for a target looks for, the buckets of which may be kept.
pub(crate) fn wanted_for<D: Draws>(
    shape: &Shape,
    draws: &D,
    target: Target,
    kept: Option<KeptPair>,
) -> Wanted
    requires one_shape { D.shape draws.now ≡ shape.now }
    requires log_in { target.log < shape.now.logs }
    requires number_in { target.number < turn_count shape.now }
    ensures wanted { let words = words_of shape.now (D.book draws.now) in
        let pair = words.pair target.log target.number in
        result ≡ record { log = target.log; number = target.number; pair = pair } }
    ensures first_in { result.pair.0 < shape.now.buckets }
    ensures second_in { result.pair.1 < shape.now.buckets }
{
    Wanted {
        log: target.log,
        number: target.number,
        pair: pair_of_target(shape, draws, target, kept),
    }
}

/// The text of what is wanted in the blocks of its pair of buckets: of the slots whose buckets are
/// the pair, in order, and whose block opens, the text of the one with the least position, and of
/// equal ones of the first.
pub(crate) fn text_in_blocks<D: Draws>(
    alloc: Global,
    shape: &Shape,
    draws: &D,
    wanted: Wanted,
    first: &[u8],
    second: &[u8],
) -> Result<Option<Bytes>, Memory>
    requires one_shape { D.shape draws.now ≡ shape.now }
    requires log_in { wanted.log < shape.now.logs }
    requires number_in { wanted.number < turn_count shape.now }
    requires first_whole { length first.now ≡ width shape.now }
    requires second_whole { length second.now ≡ width shape.now }
    ensures text { let words = words_of shape.now (D.book draws.now) in
        IfOk result (λ o. o ≡ text_among wanted.pair (opened words wanted.log wanted.number)
        (slots_in shape.now first.now ++ slots_in shape.now second.now)) }
{
    let first = earliest_in(alloc, shape, draws, wanted, first)?;
    let second = earliest_in(alloc, shape, draws, wanted, second)?;
    Ok(text_of(earlier(first, second)))
}

/// What the slots of a block give: of those that are accepted the one with the least position, of
/// equal ones the first.
fn earliest_in<D: Draws>(
    alloc: Global,
    shape: &Shape,
    draws: &D,
    wanted: Wanted,
    block: &[u8],
) -> Result<Option<Accepted>, Memory>
    requires one_shape { D.shape draws.now ≡ shape.now }
    requires log_in { wanted.log < shape.now.logs }
    requires number_in { wanted.number < turn_count shape.now }
    requires whole { length block.now ≡ width shape.now }
    ensures earliest { let words = words_of shape.now (D.book draws.now) in
        IfOk result (λ o. o ≡ earliest (filter_map
        (accepted wanted.pair (opened words wanted.log wanted.number))
        (slots_in shape.now block.now))) }
{
    let mut earliest = None;
    for slot in block.chunks_exact(shape.slot_len() as usize) {
        let next = accepted_in(alloc, shape, draws, wanted, slot)?;
        earliest = earlier(earliest, next);
    }
    Ok(earliest)
}

/// The earlier of two that may be there, and of two at one position the first.
fn earlier(one: Option<Accepted>, other: Option<Accepted>) -> Option<Accepted>
    ensures { result ≡ earlier_of_both one other }
{
    match (one, other) {
        (Some(one), Some(other)) => {
            if one.0 <= other.0 {
                Some(one)
            } else {
                Some(other)
            }
        }
        (Some(one), None) => Some(one),
        (None, other) => other,
    }
}

fn text_of(accepted: Option<Accepted>) -> Option<Bytes>
    ensures { result ≡ option_map (λ x. x.1) accepted }
{
    Some(accepted?.1)
}

/// What a slot gives, if it is accepted: it isn't empty, its buckets are the pair, in order, and
/// its block opens.
fn accepted_in<D: Draws>(
    alloc: Global,
    shape: &Shape,
    draws: &D,
    wanted: Wanted,
    slot: &[u8],
) -> Result<Option<Accepted>, Memory>
    requires one_shape { D.shape draws.now ≡ shape.now }
    requires log_in { wanted.log < shape.now.logs }
    requires number_in { wanted.number < turn_count shape.now }
    requires whole { length slot.now ≡ slot_len shape.now }
    ensures accepted { let words = words_of shape.now (D.book draws.now) in
        let opens = opened words wanted.log wanted.number in
        IfOk result (λ o. o ≡ accepted wanted.pair opens (slot_from slot.now)) }
{
    let position = u64_at(slot, 0);
    if position == 0 {
        return Ok(None);
    }
    if u32_at(slot, 8) != wanted.pair.0 || u32_at(slot, 12) != wanted.pair.1 {
        return Ok(None);
    }
    match opened_text(alloc, shape, draws, wanted, &slot[16..])? {
        Some(text) => Ok(Some((position, text))),
        None => Ok(None),
    }
}

/// The text that a block opens to.
fn opened_text<D: Draws>(
    alloc: Global,
    shape: &Shape,
    draws: &D,
    wanted: Wanted,
    block: &[u8],
) -> Result<Option<Bytes>, Memory>
    requires one_shape { D.shape draws.now ≡ shape.now }
    requires log_in { wanted.log < shape.now.logs }
    requires number_in { wanted.number < turn_count shape.now }
    requires whole { length block.now ≡ shape.now.block }
    ensures text { IfOk result (λ o. o ≡ opened
        (words_of shape.now (D.book draws.now)) wanted.log wanted.number block.now) }
{
    let mut room = vec![in alloc; 0u8; shape.block as usize - 18]?;
    match draws.open(wanted.log, wanted.number, block, room.as_mut_slice()) {
        Some(len) => Ok(Some(Bytes::from_slice(alloc, &room[..len])?)),
        None => Ok(None),
    }
}
