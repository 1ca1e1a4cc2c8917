ghost use Rattle.std.specs.Prelude.{◌≡◌, ◌<◌, ◌+◌, All, length, map, replicate, IfOk};
ghost use Rattle.tk_shape.specs.Lengths.{turn_count};
ghost use Rattle.tk_schedule.specs.declared.item.Item.TheVariants.{Publish};
ghost use Rattle.tk_schedule.specs.Schedule.{marks_due};
ghost use Rattle.tk_run.specs.Ran.{turn_of, placed_clients, set_on};
ghost use Rattle.tk_run.specs.Courses.{entries_behind, IsInTurn};

use crate::pinned_write::PinnedWrite;
use std::alloc::Global;
use tk_schedule::{Item, Items, TurnOrder, closes};
use tk_shape::{Memory, Shape, Words};

/// How many entries stand before those of a turn.
pub(crate) fn behind(shape: &Shape, turn: u32) -> u64
    requires { turn < turn_count shape.now }
    ensures { result ≡ entries_behind shape.now turn }
{
    u64::from(turn) * u64::from(shape.clients) + u64::from(turn / shape.ticks)
}

/// A turn as it came about.
pub(crate) fn turn_from(
    alloc: Global,
    shape: &Shape,
    turn: u32,
    deeds: &[PinnedWrite],
) -> Result<TurnOrder, Memory>
    requires turn_in { turn < turn_count shape.now }
    requires counted { length deeds.now ≡ shape.now.clients }
    requires within { All (IsInTurn shape.now turn) deeds.now }
    ensures { IfOk result
        (λ t. t ≡ turn_of shape.now turn (entries_behind shape.now turn) deeds.now) }
{
    Ok(TurnOrder {
        order: Items::from_vec(order_from(alloc, shape, turn, deeds)?),
        epochs: epochs_from(alloc, deeds)?,
    })
}

/// The order of a turn's entries. Where no client's write stands, the mark does.
fn order_from(
    alloc: Global,
    shape: &Shape,
    turn: u32,
    deeds: &[PinnedWrite],
) -> Result<Vec<Item>, Memory>
    requires turn_in { turn < turn_count shape.now }
    requires counted { length deeds.now ≡ shape.now.clients }
    requires within { All (IsInTurn shape.now turn) deeds.now }
    ensures { let blank = replicate (shape.now.clients + marks_due shape.now turn) Publish in
        IfOk result (λ order. order.items
        ≡ placed_clients (entries_behind shape.now turn) 0 deeds.now blank) }
{
    let marks = if closes(shape, turn) { 1 } else { 0 };
    let count = shape.clients as usize + marks;
    let mut order = vec![in alloc; Item::Publish; count]?;
    let start = behind(shape, turn);
    'placing: for (i, deed) in deeds.iter().enumerate() {
        order[(deed.position - start - 1) as usize] = Item::Client(i as u32);
    }
    Ok(order)
}

/// The epochs that the clients read.
fn epochs_from(alloc: Global, deeds: &[PinnedWrite]) -> Result<Words, Memory>
    ensures { IfOk result (λ w. w ≡ map (λ d. (set_on d).number) deeds.now) }
{
    let mut epochs = Vec::new(alloc);
    'reading: for deed in deeds {
        epochs.push(deed.set.number())?;
    }
    Ok(Words::from_vec(epochs))
}
