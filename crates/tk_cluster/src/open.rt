ghost use Rattle.std.specs.Prelude.{◌≡◌, ◌+◌, ◌≤◌, [], ◌∷◌, All, map, length, Some, IfOk};
ghost use Rattle.std.specs.Arc.{arc_value};
ghost use Rattle.std.specs.List.{range_with_len};
ghost use Rattle.atomic_table.specs.Seated.{TableId};
ghost use Rattle.tk_cluster.specs.Clusters.{Opened};
ghost use Rattle.tk_cluster.specs.Passes.{fresh, seats_for};

use crate::{Cluster, EpochSet, Pass, Publisher};
use std::alloc::Global;
use std::sync::{Arc, Wait};
use tk_board::{Publisher as Board, Reader};
use tk_order::{Blank, Naming, Order, OrderSeat};
use tk_replica::Replica;
use tk_shape::{Memory, Shape};

impl<B: Naming> Cluster<B> {
    /// A cluster of the blank's shape, its publisher, and a pass for each client, by number. Where
    /// memory runs out the blank is lost.
    pub fn open<R: Wait + AllocGlobal>(
        rt: &R,
        blank: Blank,
    ) -> Result<(Cluster<B>, Publisher<B>, Vec<Pass<B>>), Memory>
        requires table { blank.table ≡ B.table }
        requires shape { blank.shape ≡ B.shape }
        requires seats { blank.seats ≡ B.shape.clients + 1 }
        ensures { IfOk result (λ r. Opened B.shape r.1 r.2.items) }
    {
        let alloc = rt.alloc();
        let shape = blank.shape();
        let (order, mut seats) = Order::<B>::open(rt, alloc, blank)?;
        let mut seat = seats.remove(0);
        let replicas = replicas_of(alloc, &shape, &order, &mut seat)?;
        let cluster = Cluster {
            shape,
            order,
            replicas,
        };
        let first = cluster.set(rt, &mut seat, 0, 0)?;
        let (board, readers) = board_of(rt, &first, shape.clients)?;
        let passes = match passes_of(alloc, shape.clients, seats, readers, &first) {
            Ok(passes) => passes,
            Err(refusal) => {
                let _lost = board.close(rt, Vec::new(alloc));
                return Err(refusal);
            }
        };
        let publisher = Publisher::new(seat, board);
        Ok((cluster, publisher, passes))
    }
}

/// A replica for each server, of an order in which nothing stands.
fn replicas_of<B: Naming>(
    alloc: Global,
    shape: &Shape,
    order: &Order<B>,
    seat: &mut OrderSeat<B>,
) -> Result<Vec<Replica<B>>, Memory>
    requires { shape.now ≡ B.shape }
    ensures same { seat.new ≡ seat.old }
    ensures counted { IfOk result (λ v. length v.items ≡ shape.now.servers) }
{
    let mut replicas = Vec::with_capacity(alloc, shape.servers as usize)?;
    for _made in 0..shape.servers {
        replicas.push(Replica::open(alloc, shape, order, seat)?)?;
    }
    Ok(replicas)
}

/// A board that has shown the first set, and so many readers of it.
fn board_of<R: Wait + AllocGlobal>(
    rt: &R,
    first: &Arc<EpochSet>,
    readers: u32,
) -> Result<(Board<Arc<EpochSet>>, Vec<Reader<Arc<EpochSet>>>), Memory>
    requires some { 1 ≤ readers }
    requires first { (arc_value first.now).number ≡ 0 }
    ensures list { IfOk result (λ r. r.0.list ≡ arc_value first.now ∷ []) }
    ensures readers { IfOk result (λ r. All (λ k. k ≡ r.0) r.1.items) }
{
    let shown = Arc::try_clone(first)?;
    match tk_board::open(rt, shown, readers) {
        Ok(opened) => Ok(opened),
        Err(_) => Err(Memory),
    }
}

/// The passes of the clients, by number, which know the first set.
fn passes_of<B: Naming>(
    alloc: Global,
    clients: u32,
    mut seats: Vec<OrderSeat<B>>,
    mut readers: Vec<Reader<Arc<EpochSet>>>,
    first: &Arc<EpochSet>,
) -> Result<Vec<Pass<B>>, Memory>
    requires clients { clients ≡ B.shape.clients }
    requires seats { seats.items ≡ seats_for 0 clients }
    requires readers { All (λ r. r.list ≡ arc_value first.now ∷ []) readers.items }
    requires first { (arc_value first.now).number ≡ 0 }
    ensures { (board : TableId) → All (λ r. r.board ≡ board) readers.items
        → IfOk result
        (λ v. v.items ≡ map (fresh board (arc_value first.now)) (range_with_len 0 clients)) }
{
    let mut passes = Vec::with_capacity(alloc, clients as usize)?;
    for client in 0..clients {
        let seat = seats.remove(0);
        let Some(reader) = readers.pop() else {
            return Err(Memory);
        };
        let held = Arc::try_clone(first)?;
        passes.push(Pass::new(alloc, seat, client, reader, held))?;
    }
    Ok(passes)
}
