ghost use Rattle.std.specs.Prelude.{◌≡◌, ◌<◌, ◌∷◌, [], Some, length, IfOk, IfSome, IfNone};
ghost use Rattle.tk_script.specs.Reading as reading;
ghost use Rattle.tk_script.specs.Reading.{IsTaken, parts_of, numbers_spelled};
ghost use Rattle.tk_script.specs.TurnHead.{HasHead};

use crate::lines::place_of;
use crate::numbers::number_of;
use std::alloc::Global;
use tk_schedule::{Item, Items, RawKind};
use tk_shape::{Memory, Words};

/// What stands in front of a line's items or epochs, and these.
#[derive(Clone, Copy)]
struct Head<'a> {
    word: &'a [u8],
    phase: u32,
    tick: u32,
    rest: &'a [u8],
}

/// What a line of a history says: the order or the epochs of a turn. Whether the turn has them is
/// not asked here.
pub fn turn_of(alloc: Global, line: &[u8]) -> Result<Option<RawKind>, Memory>
    ensures { IfOk result (λ o. IsTaken o (reading.read_turn line.now)) }
{
    let Some(head) = head_of(line) else {
        return Ok(None);
    };
    if head.word == b"order".as_slice() {
        return order_in(alloc, head);
    }
    if head.word == b"reads".as_slice() {
        return reads_in(alloc, head);
    }
    Ok(None)
}

/// The order of a turn.
fn order_in(alloc: Global, head: Head<'_>) -> Result<Option<RawKind>, Memory>
    ensures { IfOk result (λ o. IsTaken o (reading.order_said (Some head.entry.phase)
        (Some head.entry.tick) (reading.items_spelled (parts_of head.entry.rest.now)))) }
{
    let Some(items) = items_in(alloc, head.rest)? else {
        return Ok(None);
    };
    Ok(Some(RawKind::Order {
        phase: head.phase,
        tick: head.tick,
        items,
    }))
}

/// The epochs of a turn.
fn reads_in(alloc: Global, head: Head<'_>) -> Result<Option<RawKind>, Memory>
    ensures { IfOk result (λ o. IsTaken o (reading.reads_said (Some head.entry.phase)
        (Some head.entry.tick) (numbers_spelled (parts_of head.entry.rest.now)))) }
{
    let Some(epochs) = epochs_in(alloc, head.rest)? else {
        return Ok(None);
    };
    Ok(Some(RawKind::Reads {
        phase: head.phase,
        tick: head.tick,
        epochs,
    }))
}

/// The head of a line.
fn head_of(line: &[u8]) -> Option<Head<'_>>
    ensures found { IfSome result (λ h.
        HasHead (parts_of line.now) h.word.now h.phase h.tick (parts_of h.rest.now)) }
    ensures none { IfNone result (reading.read_turn line.now ≡ reading.no_turn) }
{
    let (word, rest) = first_part(line);
    let (phase, rest) = first_part(rest?);
    let (tick, rest) = first_part(rest?);
    let rest = rest?;
    let phase = number_of(phase)?;
    let tick = number_of(tick)?;
    Some(Head {
        word,
        phase,
        tick,
        rest,
    })
}

/// The part of a text up to its first space, and what stands after it.
fn first_part(text: &[u8]) -> (&[u8], Option<&[u8]>)
    ensures some { IfSome result.1 (λ r. parts_of text.now ≡ result.0.now ∷ parts_of r.now) }
    ensures shorter { IfSome result.1 (λ r. length r.now < length text.now) }
    ensures none { IfNone result.1 (parts_of text.now ≡ result.0.now ∷ []) }
{
    match place_of(text, b' ') {
        Some(end) => (&text[..end], Some(&text[end + 1..])),
        None => (text, None),
    }
}

/// What stands in a place of an order.
fn item_of(text: &[u8]) -> Option<Item>
    ensures { result ≡ reading.item_spelled text.now }
{
    if text == b"mark".as_slice() {
        return Some(Item::Publish);
    }
    match number_of(text) {
        Some(client) => Some(Item::Client(client)),
        None => None,
    }
}

/// The items that the parts of a text spell.
fn items_in(alloc: Global, text: &[u8]) -> Result<Option<Items>, Memory>
    ensures { IfOk result (λ o. o ≡ reading.items_spelled (parts_of text.now)) }
{
    let mut items = Vec::new(alloc);
    let mut rest = text;
    'items: loop {
        let (part, behind) = first_part(rest);
        let Some(item) = item_of(part) else {
            return Ok(None);
        };
        items.push(item)?;
        let Some(more) = behind else {
            return Ok(Some(Items::from_vec(items)));
        };
        rest = more;
    }
}

/// The numbers that the parts of a text spell.
fn epochs_in(alloc: Global, text: &[u8]) -> Result<Option<Words>, Memory>
    ensures { IfOk result (λ o. o ≡ numbers_spelled (parts_of text.now)) }
{
    let mut epochs = Vec::new(alloc);
    let mut rest = text;
    'epochs: loop {
        let (part, behind) = first_part(rest);
        let Some(epoch) = number_of(part) else {
            return Ok(None);
        };
        epochs.push(epoch)?;
        let Some(more) = behind else {
            return Ok(Some(Words::from_vec(epochs)));
        };
        rest = more;
    }
}
