ghost use Rattle.std.specs.Prelude.{◌≡◌, ◌==◌, ◌<◌, ◌&&◌, nat_le, count_by};
ghost use Rattle.std.specs.List.{list_all, range_with_len};
ghost use Rattle.tk_shape.specs.Lengths.{turn_count};
ghost use Rattle.tk_schedule.specs.Schedule.{is_of, is_mark};
ghost use Rattle.tk_schedule.specs.Due.{is_turn_of, is_order, are_epochs};

use crate::{Item, closes, place};
use tk_shape::Shape;

/// Whether a phase and a tick are a turn's.
pub(crate) fn is_turn_of(shape: &Shape, turn: u32, phase: u32, tick: u32) -> bool
    requires { turn < turn_count shape.now }
    ensures { result ≡ is_turn_of shape.now turn phase tick }
{
    let (due_phase, due_tick) = place(shape, turn);
    phase == due_phase && tick == due_tick
}

/// Whether items have each client once, in a closing turn the mark once, and nothing else.
pub(crate) fn is_order(shape: &Shape, turn: u32, items: &[Item]) -> bool
    requires { turn < turn_count shape.now }
    ensures { result ≡ is_order shape.now turn items.now }
{
    let marks = usize::from(closes(shape, turn));
    items.len() == shape.clients as usize + marks
        && has_each(shape.clients, items)
        && marks_in(items) == marks
}

/// Whether each client below a number is there once.
fn has_each(clients: u32, items: &[Item]) -> bool
    ensures { result
        ≡ list_all (λ c. count_by (is_of c) items.now == 1) (range_with_len 0 clients) }
{
    (0..clients).all(|client| times(client, items) == 1)
}

/// How often a client is there.
fn times(client: u32, items: &[Item]) -> usize
    ensures { result ≡ count_by (is_of client) items.now }
{
    items.iter().filter(|item| is_of(client, item)).count()
}

/// Whether an item is a client's write.
fn is_of(client: u32, item: &Item) -> bool
    ensures { result ≡ is_of client item.now }
{
    match item {
        Item::Client(other) => client == *other,
        Item::Publish => false,
    }
}

/// How many marks are there.
fn marks_in(items: &[Item]) -> usize
    ensures { result ≡ count_by is_mark items.now }
{
    items.iter().filter(|item| is_mark(item)).count()
}

/// Whether an item is the mark.
fn is_mark(item: &Item) -> bool
    ensures { result ≡ is_mark item.now }
{
    match item {
        Item::Client(_) => false,
        Item::Publish => true,
    }
}

/// Whether there is an epoch for each client: the last one before the turn, or the turn's own.
pub(crate) fn are_epochs(shape: &Shape, turn: u32, epochs: &[u32]) -> bool
    requires { turn < turn_count shape.now }
    ensures { result ≡ are_epochs shape.now turn epochs.now }
{
    epochs.len() == shape.clients as usize
        && all_between(turn / shape.ticks, (turn + 1) / shape.ticks, epochs)
}

/// Whether each number is in a range, whose ends are in it.
fn all_between(low: u32, high: u32, numbers: &[u32]) -> bool
    ensures { result ≡ list_all (λ n. nat_le low n && nat_le n high) numbers.now }
{
    numbers
        .iter()
        .all(|number| low <= *number && *number <= high)
}
