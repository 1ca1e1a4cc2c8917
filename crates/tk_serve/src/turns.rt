//! Turns that all clients have written.
ghost use Rattle.std.specs.Prelude.{◌≡◌, ◌+◌, ◌<◌, List, [], ◌∷◌, ◌++◌, length, map, OnOk};
ghost use Rattle.tk_shape.specs.declared.shape.Shape.{Shape};
ghost use Rattle.tk_frames.specs.declared.entry.Placed.{Placed};
ghost use Rattle.tk_replica.specs.Replica.{StandsFor};
ghost use Rattle.tk_serve.specs.Desks.{TakesTurn, MayComeNext, HasWrites, ForWaiting, ForWritten, with_writes};
ghost use Rattle.tk_serve.specs.Desks.{desk_behind, turns_through};
ghost use Rattle.tk_shape.specs.Lengths.{turn_count};
ghost use Rattle.tk_report.specs.Turns.{next_placed};

use crate::desk::Desk;
use crate::server::Server;
use std::alloc::Global;
use tk_frames::{Entry, Placed};
use tk_replica::ReplicaState;
use tk_schedule::closes;
use tk_shape::{Memory, Shape};

impl Server {
    ghost use Rattle.std.specs.Prelude.{◌≡◌, ◌+◌, length, nat_lt, OnOk};
    ghost use Rattle.std.specs.List.{list_all};
    ghost use Rattle.tk_serve.specs.Stands.{StandsAt, ForTurn, MayApply};

    /// Whether the writes of all clients are there for the turn that is due.
    pub(crate) fn is_complete(&self) -> bool
        ensures { result ≡ list_all (λ d. nat_lt 0 (length d.waiting)) self.now.desks.items }
    {
        self.desks.as_slice().iter().all(|desk| desk.has_write())
    }

    /// Applies the turn that is due: the clients by number, and then the mark if it closes its phase.
    pub(crate) fn apply_turn(&mut self, alloc: Global) -> Result<(), Memory>
        requires { MayApply self.old }
        ensures shape { self.new.shape ≡ self.old.shape }
        ensures stands { ForTurn self.old (λ shape seats g n.
            OnOk result (StandsAt shape seats (g + 1) n self.new)) }
    {
        apply_writes(alloc, &mut self.state, self.desks.as_mut_slice())?;
        apply_mark(alloc, &self.shape, self.turn, &mut self.state)?;
        self.turn += 1;
        Ok(())
    }
}

/// Applies the first write that waits of each client.
fn apply_writes(alloc: Global, state: &mut ReplicaState, desks: &mut [Desk]) -> Result<(), Memory>
    requires { TakesTurn state.old desks.old }
    ensures stands { ForWaiting state.old desks.old (λ shape E write.
        OnOk result (StandsFor shape (with_writes E write (length desks.old)) state.new)) }
    ensures desks { OnOk result (desks.new ≡ map desk_behind desks.old) }
    ensures floor { state.new.floor ≡ state.old.floor }
{
    'clients: for desk in desks.iter_mut() {
        let Some(write) = desk.next_write() else {
            return Err(Memory);
        };
        apply(alloc, state, Entry::Write(write))?;
    }
    Ok(())
}

/// After the writes of a turn applies the mark, if the turn closes its phase.
fn apply_mark(
    alloc: Global,
    shape: &Shape,
    turn: u32,
    state: &mut ReplicaState,
) -> Result<(), Memory>
    requires turn { turn < turn_count shape.now }
    requires written { HasWrites shape.now turn state.old }
    ensures stands { ForWritten shape.now turn state.old (λ write.
        OnOk result (StandsFor shape.now (turns_through shape.now write turn) state.new)) }
    ensures floor { state.new.floor ≡ state.old.floor }
{
    if !closes(shape, turn) {
        return Ok(());
    }
    let epoch = state.last() + 1;
    apply(alloc, state, Entry::Mark(epoch))
}

/// Applies an entry at the next position.
fn apply(alloc: Global, state: &mut ReplicaState, entry: Entry) -> Result<(), Memory>
    requires { MayComeNext state.old entry }
    ensures stands { (shape : Shape) (E : List Placed) → StandsFor shape E state.old
        → OnOk result (StandsFor shape (E ++ next_placed E entry ∷ []) state.new) }
    ensures floor { state.new.floor ≡ state.old.floor }
{
    let position = state.applied() + 1;
    state.apply(alloc, &Placed { position, entry })
}
