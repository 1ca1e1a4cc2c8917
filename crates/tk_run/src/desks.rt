ghost use Rattle.std.specs.Prelude.{◌≡◌, ◌<◌, ◌+◌, ℕ, Some, None, map, IfOk, OnOk};
ghost use Rattle.std.specs.Option.{ForSome};
ghost use Rattle.tk_shape.specs.Lengths.{turn_count};
ghost use Rattle.tk_words.specs.Words.{words_of};
ghost use Rattle.tk_client.specs.Reader.{Reader};
ghost use Rattle.tk_client.specs.Writing.{first_waiting, after_write};
ghost use Rattle.tk_client.specs.Writes.{write_of};
ghost use Rattle.tk_report.specs.Entries.{write_at};
ghost use Rattle.tk_report.specs.Clients.{AreClients, client_knowing, client_told};
ghost use Rattle.tk_cluster.specs.Refusals.{SpellsWrite};
ghost use Rattle.tk_run.specs.Acting.{AreFrames, frames_on, deeds_on};

use crate::actors::Desk;
use crate::pinned_write::PinnedWrite;
use std::alloc::Global;
use tk_client::Client;
use tk_script::Script;
use tk_shape::{Bytes, Memory};
use tk_words::Draws;

/// A desk for each client, with the frame of its write of a turn.
pub(crate) fn desks_for<D: Draws>(
    alloc: Global,
    script: &Script,
    draws: &D,
    turn: u32,
    clients: &mut [Client],
) -> Result<Vec<Desk>, Memory>
    requires one_shape { D.shape draws.now ≡ script.now.shape }
    requires turn_in { turn < turn_count script.now.shape }
    requires clients { (knows : ℕ → Reader)
        × AreClients script.now.shape.clients (client_told script.now knows turn) clients.old }
    ensures frames { let S = script.now in
        IfOk result (λ v. AreFrames S.shape
        (write_at S (words_of S.shape (D.book draws.now)) turn) (frames_on v.items)) }
    ensures clients { let S = script.now in (knows : ℕ → Reader)
        → AreClients S.shape.clients (client_told S knows turn) clients.old
        → OnOk result
        (AreClients S.shape.clients (client_knowing S knows (turn + 1)) clients.new) }
{
    let mut desks = Vec::new(alloc);
    'writing: for client in clients.iter_mut() {
        desks.push(desk_for(alloc, draws, turn, client)?)?;
    }
    Ok(desks)
}

/// A client's desk, with the frame of its write of a turn.
fn desk_for<D: Draws>(
    alloc: Global,
    draws: &D,
    turn: u32,
    client: &mut Client,
) -> Result<Desk, Memory>
    requires one_shape { D.shape draws.now ≡ client.old.shape }
    requires turn_in { turn < turn_count client.old.shape }
    requires number_in { ForSome (first_waiting client.old.writing)
        (λ y. y.number < turn_count client.old.shape) }
    ensures frame { let words = words_of client.old.shape (D.book draws.now) in
        let write = write_of words turn client.old.number (first_waiting client.old.writing) in
        IfOk result (λ d. SpellsWrite client.old.shape d.frame.items write) }
    ensures client { OnOk result (client.new
        ≡ record client.old { writing = after_write client.old.writing }) }
{
    let mut frame = Vec::new(alloc);
    client.write_frame(alloc, draws, turn, &mut frame)?;
    Ok(Desk {
        client: client.number(),
        frame,
        deed: None,
    })
}

/// The frames that lie on desks, and what each client has from the turn.
pub(crate) fn cleared(
    alloc: Global,
    desks: Vec<Desk>,
) -> Result<(Vec<Bytes>, Vec<PinnedWrite>), Memory>
    ensures frames { IfOk result (λ r. r.0.items ≡ frames_on desks.items) }
    ensures deeds { IfOk result (λ r. deeds_on desks.items ≡ map Some r.1.items) }
{
    let mut frames = Vec::new(alloc);
    let mut deeds = Vec::new(alloc);
    'clearing: for desk in desks {
        let Desk {
            client: _,
            frame,
            deed,
        } = desk;
        let Some(deed) = deed else {
            return Err(Memory);
        };
        frames.push(Bytes::from_vec(frame))?;
        deeds.push(deed)?;
    }
    Ok((frames, deeds))
}
