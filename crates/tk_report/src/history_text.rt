ghost use Rattle.std.specs.Prelude.{◌≡◌, ◌<◌, ◌≤◌, ◌++◌, ◌∷◌, [], length, flat_map};
ghost use Rattle.std.specs.Prelude.{decimal, slice_index_or, OnOk};
ghost use Rattle.std.specs.List.{range_with_len, join_with_byte};
ghost use Rattle.tk_shape.specs.Lengths.{turn_count};
ghost use Rattle.tk_schedule.specs.Schedule.{IsLegal, blank_turn, phase_of, tick_of, epoch_at};
ghost use Rattle.tk_script.specs.Grammar.{item_word};
ghost use Rattle.tk_report.specs.Report.{order_line, reads_line, turn_lines, history_lines};

use std::alloc::Global;
use tk_schedule::{History, Item, closes, place};
use tk_script::{push_field, push_numbers};
use tk_shape::{Memory, Shape};

/// Appends the turns of a history.
pub(crate) fn push_history(
    alloc: Global,
    shape: &Shape,
    history: &History,
    out: &mut Vec<u8>,
) -> Result<(), Memory>
    requires legal { IsLegal shape.now history.now }
    ensures ok { OnOk result (out.new.items
        ≡ out.old.items ++ history_lines shape.now history.now) }
{
    for turn in 0..shape.turns() {
        push_turn(alloc, shape, history, turn, out)?;
    }
    Ok(())
}

/// Appends the order of a turn, and where it closes a phase its epochs.
fn push_turn(
    alloc: Global,
    shape: &Shape,
    history: &History,
    turn: u32,
    out: &mut Vec<u8>,
) -> Result<(), Memory>
    requires legal { IsLegal shape.now history.now }
    requires turn_in { turn < turn_count shape.now }
    ensures ok { OnOk result (out.new.items
        ≡ out.old.items ++ turn_lines shape.now history.now turn) }
{
    push_order(alloc, shape, history, turn, out)?;
    if !closes(shape, turn) {
        return Ok(());
    }
    push_reads(alloc, shape, history, turn, out)
}

/// Appends the order of a turn.
fn push_order(
    alloc: Global,
    shape: &Shape,
    history: &History,
    turn: u32,
    out: &mut Vec<u8>,
) -> Result<(), Memory>
    requires legal { IsLegal shape.now history.now }
    requires turn_in { turn < turn_count shape.now }
    ensures ok { OnOk result (out.new.items
        ≡ out.old.items ++ order_line shape.now history.now turn) }
{
    push_head(alloc, b"order", shape, turn, out)?;
    push_items(alloc, history.order(turn), out)?;
    out.push(b'\n')?;
    Ok(())
}

/// Appends the epoch that each client reads in a turn.
fn push_reads(
    alloc: Global,
    shape: &Shape,
    history: &History,
    turn: u32,
    out: &mut Vec<u8>,
) -> Result<(), Memory>
    requires legal { IsLegal shape.now history.now }
    requires turn_in { turn < turn_count shape.now }
    ensures ok { OnOk result (out.new.items
        ≡ out.old.items ++ reads_line shape.now history.now turn) }
{
    push_head(alloc, b"reads", shape, turn, out)?;
    push_epochs(alloc, history, turn, shape.clients, out)?;
    out.push(b'\n')?;
    Ok(())
}

/// Appends a word, and the phase and the tick of a turn.
fn push_head(
    alloc: Global,
    word: &[u8],
    shape: &Shape,
    turn: u32,
    out: &mut Vec<u8>,
) -> Result<(), Memory>
    requires turn_in { turn < turn_count shape.now }
    ensures ok { OnOk result (out.new.items ≡ out.old.items ++ join_with_byte 0x20
        (word.now ∷ decimal (phase_of shape.now turn) ∷ decimal (tick_of shape.now turn) ∷ [])) }
{
    let (phase, tick) = place(shape, turn);
    push_numbers(alloc, word, &[u64::from(phase), u64::from(tick)], out)
}

/// Appends items, each with a space in front.
fn push_items(alloc: Global, order: &[Item], out: &mut Vec<u8>) -> Result<(), Memory>
    ensures ok { OnOk result (out.new.items
        ≡ out.old.items ++ flat_map (λ x. 0x20 ∷ item_word x) order.now) }
{
    for item in order {
        push_item(alloc, *item, out)?;
    }
    Ok(())
}

/// Appends an item with a space in front.
fn push_item(alloc: Global, item: Item, out: &mut Vec<u8>) -> Result<(), Memory>
    ensures ok { OnOk result (out.new.items ≡ out.old.items ++ 0x20 ∷ item_word item) }
{
    match item {
        Item::Client(client) => push_field(alloc, u64::from(client), out),
        Item::Publish => {
            out.extend_from_slice(b" mark")?;
            Ok(())
        }
    }
}

/// Appends the epoch that each of these clients reads in a turn, with a space in front of each.
fn push_epochs(
    alloc: Global,
    history: &History,
    turn: u32,
    clients: u32,
    out: &mut Vec<u8>,
) -> Result<(), Memory>
    requires turn_in { turn < length history.now }
    requires clients_in { clients ≤ length (slice_index_or history.now turn blank_turn).epochs }
    ensures ok { OnOk result (out.new.items ≡ out.old.items
        ++ flat_map (λ c. 0x20 ∷ decimal (epoch_at history.now turn c))
        (range_with_len 0 clients)) }
{
    for client in 0..clients {
        push_field(alloc, u64::from(history.epoch(turn, client)), out)?;
    }
    Ok(())
}
