//! What a client does in a turn: it writes once, and it reads once. Here it is the only one, and
//! each turn closes a phase, so that turn g has the entries 2 * g + 1, its write, and 2 * g + 2,
//! the mark of epoch g + 1.
ghost use Rattle.std.specs.Prelude.{◌≡◌, ◌+◌, ◌^◌, ◌<◌, ◌++◌, ◌∷◌, [], List, length, None};
ghost use Rattle.std.specs.Prelude.{IfErr, OnOk};
ghost use Rattle.std.specs.Option.{ForSome};
ghost use Rattle.tk_shape.specs.declared.shape.Shape.{Shape};
ghost use Rattle.tk_shape.specs.Lengths.{turn_count};
ghost use Rattle.tk_frames.specs.declared.entry.Placed.{Placed};
ghost use Rattle.tk_client.specs.Writing.{first_waiting};
ghost use Rattle.tk_frames.specs.InOrder.{IsNext};
ghost use Rattle.embed.specs.Faults.{IsReadFault};
ghost use Rattle.embed.specs.Servers.{AllStandFor};
ghost use Rattle.embed.specs.Turns.{written, record_of, mark_of, with_turn, after_read};
ghost use Rattle.embed.specs.Turns.{IsBeforeTurn, after_turn};

use crate::fault::Fault;
use crate::order::{mark_frame, record_frame};
use crate::servers::{answers, take_all};
use std::alloc::Global;
use tk_client::Client;
use tk_replica::ReplicaState;
use tk_words::Draws;

/// The client writes, and each server takes the record of it.
fn write<D: Draws>(
    alloc: Global,
    draws: &D,
    turn: u32,
    client: &mut Client,
    servers: &mut [ReplicaState],
) -> Result<(), Fault>
    requires one_shape { D.shape draws.now ≡ client.old.shape }
    requires one_tick { client.old.shape.ticks ≡ 1 }
    requires turn_in { turn < turn_count client.old.shape }
    requires number_in { ForSome (first_waiting client.old.writing)
        (λ y. y.number < turn_count client.old.shape) }
    ensures client { OnOk result (client.new ≡ written client.old) }
    ensures servers { (E : List Placed) → AllStandFor client.old.shape E servers.old
        → OnOk result (AllStandFor client.old.shape
        (E ++ record_of (D.book draws.now) turn client.old ∷ []) servers.new) }
    ensures due { (E : List Placed) → AllStandFor client.old.shape E servers.old
        → IsBeforeTurn turn E → IfErr result (λ e. e ≡ Fault.Memory) }
{
    let shape = *client.shape();
    let mut frame = Vec::new(alloc);
    client.write_frame(alloc, draws, turn, &mut frame)?;
    let position = 2 * u64::from(turn) + 1;
    let record = record_frame(alloc, &shape, position, frame.as_slice())?;
    take_all(alloc, servers, record.as_slice())
}

/// Each server takes the mark.
fn mark(alloc: Global, turn: u32, servers: &mut [ReplicaState]) -> Result<(), Fault>
    requires { turn + 1 < 2 ^ 32 }
    ensures servers { (shape : Shape) (E : List Placed)
        → AllStandFor shape E servers.old → turn < shape.phases
        → OnOk result (AllStandFor shape (E ++ mark_of turn ∷ []) servers.new) }
    ensures due { (shape : Shape) (E : List Placed)
        → AllStandFor shape E servers.old → IsNext shape E (mark_of turn)
        → IfErr result (λ e. e ≡ Fault.Memory) }
{
    let position = 2 * u64::from(turn) + 2;
    let mark = mark_frame(alloc, position, turn + 1)?;
    take_all(alloc, servers, mark.as_slice())
}

/// The client reads over the epoch of the turn's mark: it asks each server, and takes the replies.
/// Which numbers are worth reading it learns from the filter of that epoch, as the first server
/// keeps it.
fn read<D: Draws>(
    alloc: Global,
    draws: &D,
    turn: u32,
    client: &mut Client,
    servers: &[ReplicaState],
) -> Result<(), Fault>
    requires one_shape { D.shape draws.now ≡ client.old.shape }
    requires one_tick { client.old.shape.ticks ≡ 1 }
    requires closed { client.old.read ≡ None }
    requires turn_in { turn < turn_count client.old.shape }
    requires counted { length servers.now ≡ client.old.shape.servers }
    ensures client { (E : List Placed) → AllStandFor client.old.shape E servers.now
        → OnOk result (client.new ≡ after_read (D.book draws.now) turn E client.old) }
    ensures fault { IfErr result IsReadFault }
{
    let epoch = turn + 1;
    let shown = servers[0].pin(epoch)?;
    let mut frames = Vec::new(alloc);
    client.read_frames(alloc, draws, turn, epoch, shown.filter(), &mut frames)?;
    let replies = answers(alloc, servers, frames.as_slice())?;
    client.take_replies(alloc, draws, replies.as_slice())?;
    Ok(())
}

/// A turn: the write, the mark, and the read over the mark's epoch.
pub fn take_turn<D: Draws>(
    alloc: Global,
    draws: &D,
    turn: u32,
    client: &mut Client,
    servers: &mut [ReplicaState],
) -> Result<(), Fault>
    requires one_shape { D.shape draws.now ≡ client.old.shape }
    requires one_tick { client.old.shape.ticks ≡ 1 }
    requires closed { client.old.read ≡ None }
    requires turn_in { turn < turn_count client.old.shape }
    requires number_in { ForSome (first_waiting client.old.writing)
        (λ y. y.number < turn_count client.old.shape) }
    requires counted { length servers.old ≡ client.old.shape.servers }
    ensures servers { (E : List Placed) → AllStandFor client.old.shape E servers.old
        → OnOk result (AllStandFor client.old.shape
        (with_turn (D.book draws.now) turn client.old E) servers.new) }
    ensures client { (E : List Placed) → AllStandFor client.old.shape E servers.old
        → OnOk result (client.new ≡ after_turn (D.book draws.now) turn E client.old) }
    ensures fault { (E : List Placed) → AllStandFor client.old.shape E servers.old
        → IsBeforeTurn turn E → IfErr result IsReadFault }
{
    write(alloc, draws, turn, client, servers)?;
    mark(alloc, turn, servers)?;
    read(alloc, draws, turn, client, servers)?;
    Ok(())
}
