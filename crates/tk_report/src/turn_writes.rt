ghost use Rattle.std.specs.Prelude.{◌≡◌, ◌<◌, ◌+◌, ℕ, length, IsTrue, IfOk, OnOk};
ghost use Rattle.std.specs.Prelude.{slice_index_or, slice_set};
ghost use Rattle.tk_shape.specs.Lengths.{turn_count};
ghost use Rattle.tk_schedule.specs.declared.item.Item.TheVariants.{Client as Writes, Publish};
ghost use Rattle.tk_schedule.specs.Schedule.{is_within};
ghost use Rattle.tk_frames.specs.Ranges.{IsEntry};
ghost use Rattle.tk_client.specs.Client.{ClientState};
ghost use Rattle.tk_client.specs.Reader.{Reader};
ghost use Rattle.tk_report.specs.Clients.{AreKnowing, HaveSaid, AreTold, IsTold, client_told};
ghost use Rattle.tk_report.specs.Clients.{client_knowing};
ghost use Rattle.tk_report.specs.Taking.{IsBeforeTurn, TookTurn};
ghost use Rattle.tk_report.specs.Turns.{IsDue};

use crate::plan::Plan;
use crate::takes::{Takes, place_next};
use std::alloc::Global;
use tk_client::Client;
use tk_frames::Entry;
use tk_schedule::{Item, place};
use tk_shape::Memory;
use tk_words::Draws;

/// Places each entry of a turn in the order of the history: what each client writes, and the mark
/// where the turn closes a phase. What clients know as readers stays. Where memory runs out nothing
/// is promised of clients and taker.
pub(crate) fn write_turn<D: Draws, T: Takes>(
    alloc: Global,
    plan: &Plan<D>,
    turn: u32,
    clients: &mut [Client],
    taker: &mut T,
) -> Result<(), Memory>
    requires turn_in { turn < turn_count plan.now.script.now.shape }
    requires clients { AreTold plan.now.script.now turn clients.old }
    requires taker { IsBeforeTurn T.took plan.now.script.now (D.book plan.now.draws.now)
        plan.now.history.now turn taker.old }
    ensures clients { (knows : ℕ → Reader) → HaveSaid plan.now.script.now knows turn clients.old
        → OnOk result (AreKnowing plan.now.script.now knows (turn + 1) clients.new) }
    ensures taker { OnOk result (TookTurn T.took plan.now.script.now (D.book plan.now.draws.now)
        plan.now.history.now turn taker.old taker.new) }
{
    'items: for item in plan.history.order(turn) {
        let entry = entry_of(alloc, plan, turn, item, clients)?;
        place_next(alloc, entry, taker)?;
    }
    Ok(())
}

/// The entry of an item of a turn: its client's write, or the mark of the turn's phase. Where memory
/// runs out nothing is promised of the client.
fn entry_of<D: Draws>(
    alloc: Global,
    plan: &Plan<D>,
    turn: u32,
    item: &Item,
    clients: &mut [Client],
) -> Result<Entry, Memory>
    requires turn_in { turn < turn_count plan.now.script.now.shape }
    requires item { IsTrue (is_within plan.now.script.now.shape.clients item.now) }
    requires counted { length clients.old ≡ plan.now.script.now.shape.clients }
    requires due { (c : ℕ) (d : ClientState) → item.now ≡ Writes c
        → IsTold plan.now.script.now turn c (slice_index_or clients.old c d) }
    ensures in_range { IfOk result (IsEntry plan.now.script.now.shape) }
    ensures entry { IfOk result
        (IsDue plan.now.script.now (D.book plan.now.draws.now) turn item.now) }
    ensures wrote { let S = plan.now.script.now in
        (knows : ℕ → Reader) (c : ℕ) → item.now ≡ Writes c
        → ((d : ClientState) → slice_index_or clients.old c d ≡ client_told S knows turn c)
        → OnOk result
        (clients.new ≡ slice_set clients.old c (client_knowing S knows (turn + 1) c)) }
    ensures marked { item.now ≡ Publish → OnOk result (clients.new ≡ clients.old) }
{
    match item {
        Item::Client(client) => {
            let writer = &mut clients[*client as usize];
            let frame = writer.write(alloc, plan.draws, turn)?;
            Ok(Entry::Write(frame))
        }
        Item::Publish => {
            let (phase, _) = place(&plan.script.shape, turn);
            Ok(Entry::Mark(phase))
        }
    }
}
