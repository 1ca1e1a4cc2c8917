ghost use Rattle.std.specs.Prelude.{◌≡◌, ◌<◌, ◌++◌, ◌∷◌, [], map, replicate, length};
ghost use Rattle.std.specs.Prelude.{slice_get, slice_set, Some, IfOk, OnOk};
ghost use Rattle.tk_cluster.specs.Closings.{AllOnce, Closes, by_client};
ghost use Rattle.tk_cluster.specs.Passes.{reader_of, seat_of};

use crate::{Cluster, EpochSet, Pass, Publisher};
use std::alloc::Global;
use std::marker::Model;
use std::sync::{Arc, Wait};
use tk_board::Reader;
use tk_order::{Journal, Naming, OrderSeat};
use tk_shape::Memory;

/// What a closed cluster had. Seen as its order and, by client, the epochs that were pinned.
#[derive(Drop)]
pub struct Closed {
    order: Journal,
    epochs: Vec<Vec<u32>>,
}

impl Model for Closed {
    ghost use Rattle.std.specs.Prelude.{map};
    ghost use Rattle.tk_cluster.specs.Closings.{Ended};

    ghost Value = { Ended };

    ghost view = { λ c. record { order = c.order; epochs = map (λ v. v.items) c.epochs.items } };
}

impl Closed {
    /// All entries that were ordered.
    pub fn order(&self) -> &Journal
        ensures { result.now ≡ self.now.order }
    {
        &self.order
    }

    /// The epochs that a client's pass pinned, in their order.
    pub fn epochs(&self, client: u32) -> &[u32]
        requires { client < length self.now.epochs }
        ensures { slice_get self.now.epochs client ≡ Some result.now }
    {
        self.epochs[client as usize].as_slice()
    }
}

/// What is left of passes: their seats, their readers, and by client what was pinned.
#[derive(Drop)]
struct Parts<B: Naming> {
    seats: Vec<OrderSeat<B>>,
    readers: Vec<Reader<Arc<EpochSet>>>,
    epochs: Vec<Vec<u32>>,
}

impl<B: Naming> Parts<B> {
    /// Nothing of any pass, for so many clients.
    #[tactic(auto, using(crate::proofs::Closing::replicate_more))]
    fn new(alloc: Global, clients: u32) -> Result<Parts<B>, Memory>
        ensures seats { IfOk result (λ p. p.seats.items ≡ []) }
        ensures readers { IfOk result (λ p. p.readers.items ≡ []) }
        ensures counted { IfOk result (λ p. length p.epochs.items ≡ clients) }
        ensures epochs { IfOk result
            (λ p. map (λ v. v.items) p.epochs.items ≡ replicate clients []) }
    {
        let mut epochs = Vec::new(alloc);
        for _made in 0..clients {
            epochs.push(Vec::new(alloc))?;
        }
        Ok(Parts {
            seats: Vec::new(alloc),
            readers: Vec::new(alloc),
            epochs,
        })
    }

    /// Takes a pass apart.
    #[tactic(auto, using(crate::proofs::Closing::map_set, crate::proofs::Closing::set_counted))]
    fn take(&mut self, pass: Pass<B>) -> Result<(), Memory>
        requires { length self.old.epochs.items ≡ B.shape.clients }
        ensures counted { OnOk result (length self.new.epochs.items ≡ B.shape.clients) }
        ensures seats { OnOk result
            (self.new.seats.items ≡ self.old.seats.items ++ seat_of pass ∷ []) }
        ensures readers { OnOk result
            (self.new.readers.items ≡ self.old.readers.items ++ reader_of pass ∷ []) }
        ensures epochs { OnOk result (map (λ v. v.items) self.new.epochs.items
            ≡ slice_set (map (λ v. v.items) self.old.epochs.items) pass.client pass.reads.pinned) }
    {
        let client = pass.client();
        let (seat, reader, pinned) = pass.into_parts();
        self.seats.push(seat)?;
        self.readers.push(reader)?;
        self.epochs[client as usize] = pinned;
        Ok(())
    }
}

impl<B: Naming> Cluster<B> {
    /// Ends the cluster. Where memory runs out it is lost.
    pub fn close<R: Wait + AllocGlobal>(
        self,
        rt: &R,
        passes: Vec<Pass<B>>,
        publisher: Publisher<B>,
    ) -> Result<Closed, Memory>
        requires { AllOnce B.shape publisher.board passes.items }
        ensures { IfOk result (λ c. Closes B.shape passes.items publisher c) }
    {
        let clients = self.shape.clients;
        let (seat, board) = publisher.into_parts();
        let parts = match taken_apart(rt.alloc(), clients, passes, seat) {
            Ok(parts) => parts,
            Err(refusal) => {
                let _lost = board.close(rt, Vec::new(rt.alloc()));
                return Err(refusal);
            }
        };
        let Parts {
            seats,
            readers,
            epochs,
        } = parts;
        let order = self.order.close(rt, seats);
        let Ok(()) = board.close(rt, readers) else {
            return Err(Memory);
        };
        Ok(Closed { order, epochs })
    }
}

/// All passes, taken apart, and the publisher's seat after theirs.
fn taken_apart<B: Naming>(
    alloc: Global,
    clients: u32,
    passes: Vec<Pass<B>>,
    seat: OrderSeat<B>,
) -> Result<Parts<B>, Memory>
    requires { clients ≡ B.shape.clients }
    ensures seats { IfOk result
        (λ p. p.seats.items ≡ map seat_of passes.items ++ seat ∷ []) }
    ensures readers { IfOk result (λ p. p.readers.items ≡ map reader_of passes.items) }
    ensures epochs { IfOk result (λ p. map (λ v. v.items) p.epochs.items
        ≡ by_client (replicate clients []) passes.items) }
{
    let mut parts = Parts::new(alloc, clients)?;
    for pass in passes {
        parts.take(pass)?;
    }
    parts.seats.push(seat)?;
    Ok(parts)
}
