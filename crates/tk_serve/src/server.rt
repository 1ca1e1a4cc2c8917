ghost use Rattle.std.specs.Prelude.{◌≡◌, IfOk, replicate};
ghost use Rattle.tk_serve.specs.Desks.{empty_desk};

use crate::desk::Desk;
use std::alloc::Global;
use tk_replica::ReplicaState;
use tk_shape::{Memory, Shape};

/// A server: its replica, what it keeps of each client, and the turn whose writes are applied next.
#[derive(Drop)]
pub(crate) struct Server {
    pub shape: Shape,
    pub state: ReplicaState,
    pub desks: Vec<Desk>,
    pub turn: u32,
}

impl Server {
    ghost use Rattle.std.specs.Prelude.{◌≡◌, ◌==◌, List, IfOk, IsTrue, ◌↔◌};
    ghost use Rattle.std.specs.List.{list_all};
    ghost use Rattle.tk_shape.specs.declared.shape.Shape.{Shape};
    ghost use Rattle.tk_serve.specs.Seats.{Seat, empty_seats};
    ghost use Rattle.tk_serve.specs.Steps.{IsOver};
    ghost use Rattle.tk_serve.specs.Stands.{HasApplied};

    /// A server that took nothing.
    pub(crate) fn open(alloc: Global, shape: &Shape) -> Result<Server, Memory>
        ensures { IfOk result (HasApplied shape.now (empty_seats shape.now)) }
    {
        Ok(Server {
            shape: *shape,
            state: ReplicaState::open(alloc, shape)?,
            desks: empty_desks(alloc, shape.clients)?,
            turn: 0,
        })
    }

    /// Whether all clients have written and read every turn.
    pub(crate) fn is_over(&self) -> bool
        ensures { (shape : Shape) (seats : List Seat) → HasApplied shape seats self.now
            → (IsTrue result ↔ IsOver shape seats) }
    {
        let turns = self.shape.turns();
        if self.turn != turns {
            return false;
        }
        self.have_read(turns)
    }

    /// Whether so many reads of each client came.
    fn have_read(&self, turns: u32) -> bool
        ensures { result ≡ list_all (λ d. d.asked == turns) self.now.desks.items }
    {
        self.desks
            .as_slice()
            .iter()
            .all(|desk| desk.asked() == turns)
    }
}

/// A desk for each client.
fn empty_desks(alloc: Global, clients: u32) -> Result<Vec<Desk>, Memory>
    ensures { IfOk result (λ desks. desks.items ≡ replicate clients empty_desk) }
{
    let mut desks = Vec::new(alloc);
    'desks: for _ in 0..clients {
        desks.push(Desk::new(alloc))?;
    }
    Ok(desks)
}
