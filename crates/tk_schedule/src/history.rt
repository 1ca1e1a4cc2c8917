ghost use Rattle.std.specs.Prelude.{◌≡◌, IfOk, map};
ghost use Rattle.std.specs.List.{range_with_len};
ghost use Rattle.tk_schedule.specs.declared.item.Item.TheVariants.{Client};

use crate::told::turns_in;
use crate::{HistoryError, Item, Items, RawHistory, closes};
use std::alloc::Global;
use std::marker::Model;
use tk_shape::{Memory, Shape, Words};

/// A turn's order, and the epoch that each client reads in it.
#[derive(Debug, Drop)]
pub struct TurnOrder {
    pub order: Items,
    pub epochs: Words,
}

/// How a run's writes, marks and reads interleave, seen as the list of its turns.
#[derive(Debug, Drop)]
pub struct History {
    turns: Vec<TurnOrder>,
}

impl Model for History {
    ghost use Rattle.std.specs.Prelude.{List};
    ghost use Rattle.tk_schedule.specs.declared.history.TurnOrder.{TurnOrder};

    ghost Value = { List TurnOrder };

    ghost view = { λ h. h.turns.items };
}

impl History {
    ghost use Rattle.std.specs.Prelude.{◌≡◌, ◌<◌, List, length, IfOk, IsTrue, None, slice_index_or};
    ghost use Rattle.std.specs.List.{list_all};
    ghost use Rattle.tk_shape.specs.declared.shape.Shape.{Shape};
    ghost use Rattle.tk_shape.specs.Lengths.{turn_count};
    ghost use Rattle.tk_schedule.specs.declared.history.TurnOrder.{TurnOrder};
    ghost use Rattle.tk_schedule.specs.Due.{bad_line};
    ghost use Rattle.tk_schedule.specs.Told.{Tells, Gives, Names};
    ghost use Rattle.tk_schedule.specs.Schedule.{serial_history, order_at, epoch_at, blank_turn, is_within, IsLegal};

    /// The serial history: in each turn the clients by number, the mark last, and no read of the turn's own epoch.
    pub fn serial(alloc: Global, shape: &Shape) -> Result<History, Memory>
        ensures serial { IfOk result (λ h. h ≡ serial_history shape.now) }
        ensures legal { IfOk result (λ h. IsLegal shape.now h) }
    {
        let mut turns = Vec::new(alloc);
        for turn in 0..shape.turns() {
            turns.push(TurnOrder::serial(alloc, shape, turn)?)?;
        }
        Ok(History { turns })
    }

    /// The history that lines tell. An error names the first line that isn't the one due.
    pub fn from_raw(alloc: Global, shape: &Shape, raw: &RawHistory) -> Result<History, HistoryError>
        ensures told { IfOk result (λ h. Tells shape.now raw.now h) }
        ensures only { (h : List TurnOrder) → Tells shape.now raw.now h →
            Gives result (λ g. g ≡ h) }
        ensures bad { Names (λ h. None) result (bad_line shape.now raw.now) }
    {
        Ok(History {
            turns: turns_in(alloc, shape, raw.as_slice())?,
        })
    }

    /// The history of these turns.
    pub fn from_turns(turns: Vec<TurnOrder>) -> History
        requires { (shape : Shape) × IsLegal shape turns.items }
        ensures { result ≡ turns.items }
    {
        History { turns }
    }

    /// A turn's order.
    pub fn order(&self, turn: u32) -> &[Item]
        requires { turn < length self.now }
        ensures order { result.now ≡ order_at self.now turn }
        ensures clients_in { (shape : Shape) → turn < turn_count shape → IsLegal shape self.now →
            IsTrue (list_all (is_within shape.clients) result.now) }
    {
        self.turns[turn as usize].order.as_slice()
    }

    /// The epoch that a client reads in a turn.
    pub fn epoch(&self, turn: u32, client: u32) -> u32
        requires turn_in { turn < length self.now }
        requires client_in { client < length (slice_index_or self.now turn blank_turn).epochs }
        ensures { result ≡ epoch_at self.now turn client }
    {
        self.turns[turn as usize].epochs.as_slice()[client as usize]
    }
}

/// The clients by number.
fn clients_in_order(alloc: Global, clients: u32) -> Result<Vec<Item>, Memory>
    ensures { IfOk result (λ v. v.items ≡ map Client (range_with_len 0 clients)) }
{
    let mut order = Vec::new(alloc);
    for client in 0..clients {
        order.push(Item::Client(client))?;
    }
    Ok(order)
}

impl TurnOrder {
    ghost use Rattle.std.specs.Prelude.{◌≡◌, ◌<◌, IfOk, replicate};
    ghost use Rattle.tk_shape.specs.Lengths.{turn_count};
    ghost use Rattle.tk_schedule.specs.Schedule.{serial_turn, phases_over};

    /// A turn of the serial history.
    fn serial(alloc: Global, shape: &Shape, turn: u32) -> Result<TurnOrder, Memory>
        requires { turn < turn_count shape.now }
        ensures { IfOk result (λ t. t ≡ serial_turn shape.now turn) }
    {
        let mut order = clients_in_order(alloc, shape.clients)?;
        if closes(shape, turn) {
            order.push(Item::Publish)?;
        }
        Ok(TurnOrder {
            order: Items::from_vec(order),
            epochs: TurnOrder::newest_before(alloc, shape, turn)?,
        })
    }

    /// For each client the newest epoch that is made before a turn.
    pub(crate) fn newest_before(alloc: Global, shape: &Shape, turn: u32) -> Result<Words, Memory>
        ensures { IfOk result (λ w. w ≡ replicate shape.now.clients (phases_over shape.now turn)) }
    {
        let epochs = vec![in alloc; turn / shape.ticks; shape.clients as usize]?;
        Ok(Words::from_vec(epochs))
    }
}
