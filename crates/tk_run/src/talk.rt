ghost use Rattle.std.specs.Prelude.{◌≡◌, ◌+◌, true, All, length, IfOk, OnOk};
ghost use Rattle.std.specs.Prelude.{IsPermutation};
ghost use Rattle.std.specs.List.Sorted.{IsNonDecreasingBy};
ghost use Rattle.tk_schedule.specs.declared.history.History.{History};
ghost use Rattle.tk_script.specs.declared.script.Script.{Script};
ghost use Rattle.tk_report.specs.Clients.{AreClients};
ghost use Rattle.tk_run.specs.Courses.{MayRead, AreTalks, AreBlank};
ghost use Rattle.tk_run.specs.Reading.{readers, talks_of};
ghost use Rattle.tk_run.specs.Answering.{epoch_of};
ghost use Rattle.tk_run.specs.Ranging.{over_ranges};
ghost use Rattle.tk_run.specs.Under.{client_under};

use crate::answers::answer_all;
use crate::ask_threads::ask_all;
use crate::crew::Crew;
use crate::kept::Kept;
use crate::pinned_write::PinnedWrite;
use crate::sums::Sums;
use crate::taken::take_all;
use std::alloc::{AllocGlobal, Global};
use std::mem;
use std::sync::Arc;
use std::thread::Threads;
use tk_client::Client;
use tk_cluster::EpochSet;
use tk_shape::{Bytes, Memory};
use tk_words::Draws;

/// What is the same for all reads of a turn: which turn it is, the words, how many servers answer,
/// and the crew that all of them share.
#[derive(Drop)]
pub(crate) struct Round<'a, D: Draws, A: Sums> {
    pub turn: u32,
    pub draws: &'a D,
    pub sums: &'a A,
    pub servers: u32,
    pub crew: Crew,
    pub ghost servers_are: { servers ≡ (D.shape draws.now).servers },
}

/// A read in a turn: the set that answers it, and for each server what it is asked and what it
/// replies.
#[derive(Drop)]
pub(crate) struct Talk {
    pub turn: u32,
    pub set: Arc<EpochSet>,
    pub asked: Vec<Bytes>,
    pub replies: Vec<Bytes>,
}

/// A client with its read, and whether it could do what it had to do last.
#[derive(Drop)]
pub(crate) struct Reading {
    pub client: Client,
    pub talk: Talk,
    pub done: bool,
}

/// All clients ask at once, each of the set that it pinned; then each server answers the reads of
/// each epoch in one batch, and then all clients take the replies at once.
pub(crate) fn talk_all<'a, D: Draws, A: Sums, R: Threads + Sync + AllocGlobal>(
    rt: &R,
    round: &Round<'a, D, A>,
    kept: &mut Vec<Option<Kept>>,
    clients: &mut Vec<Client>,
    deeds: Vec<PinnedWrite>,
) -> Result<Vec<Talk>, Memory>
    requires { let b = D.book round.now.draws.now in
        let sum = A.sum round.now.sums.now in
        (S : Script) × (H : History) × (S.shape ≡ D.shape round.now.draws.now)
        × MayRead S b H (over_ranges S b round.now.crew.shards sum H) round.now.turn
        clients.old.items deeds.items }
    ensures talks { let b = D.book round.now.draws.now in
        let sum = A.sum round.now.sums.now in
        (S : Script) (H : History) → let V = over_ranges S b round.now.crew.shards sum H in
        MayRead S b H V round.now.turn clients.old.items deeds.items
        → IfOk result (λ v. AreTalks S b H V round.now.turn v.items) }
    ensures clients { let b = D.book round.now.draws.now in
        let sum = A.sum round.now.sums.now in
        (S : Script) (H : History) → let V = over_ranges S b round.now.crew.shards sum H in
        MayRead S b H V round.now.turn clients.old.items deeds.items
        → OnOk result (AreClients S.shape.clients
        (client_under S b H V (round.now.turn + 1)) clients.new.items) }
{
    let alloc = rt.alloc();
    let asking = mem::replace(clients, Vec::new(alloc));
    let mut readings = paired(alloc, round.turn, asking, deeds.as_slice())?;
    let all = readings.as_mut_slice();
    ask_all(rt, round, all)?;
    by_epoch(all);
    answer_all(rt, round.sums, kept, round.servers, all, round.crew)?;
    take_all(rt, round, all)?;
    by_client(all);
    let (read, talks) = parted(alloc, readings)?;
    *clients = read;
    Ok(talks)
}

/// Each client with the set of its deed.
fn paired(
    alloc: Global,
    turn: u32,
    clients: Vec<Client>,
    deeds: &[PinnedWrite],
) -> Result<Vec<Reading>, Memory>
    requires { length deeds.now ≡ length clients.items }
    ensures clients { IfOk result (λ v. readers v.items ≡ clients.items) }
    ensures talks { IfOk result (λ v. AreBlank turn deeds.now (talks_of v.items)) }
{
    let mut readings = Vec::new(alloc);
    'pairing: for client in clients {
        // there are as many deeds as clients, so that only memory may be wanting
        let Some(deed) = deeds.get(readings.len()) else {
            return Err(Memory);
        };
        let talk = Talk {
            turn,
            set: Arc::try_clone(&deed.set)?,
            asked: Vec::new(alloc),
            replies: Vec::new(alloc),
        };
        let done = false;
        readings.push(Reading { client, talk, done })?;
    }
    Ok(readings)
}

/// The clients, and their reads.
fn parted(alloc: Global, readings: Vec<Reading>) -> Result<(Vec<Client>, Vec<Talk>), Memory>
    ensures clients { IfOk result (λ r. r.0.items ≡ readers readings.items) }
    ensures talks { IfOk result (λ r. r.1.items ≡ talks_of readings.items) }
{
    let mut clients = Vec::new(alloc);
    let mut talks = Vec::new(alloc);
    'parting: for reading in readings {
        let Reading {
            client,
            talk,
            done: _done,
        } = reading;
        clients.push(client)?;
        talks.push(talk)?;
    }
    Ok((clients, talks))
}

/// Whether all could do what they had to do last.
pub(crate) fn all_done(readings: &[Reading]) -> bool
    ensures { result ≡ true → All (λ r. r.done ≡ true) readings.now }
{
    readings.iter().all(|reading| reading.done)
}

/// Puts the reads of one epoch side by side.
fn by_epoch(readings: &mut [Reading])
    ensures same { IsPermutation readings.old readings.new }
    ensures ordered { IsNonDecreasingBy epoch_of readings.new }
{
    readings.sort_unstable_by_key(|reading| reading.talk.set.number());
}

/// Puts the reads in the order of their clients.
fn by_client(readings: &mut [Reading])
    ensures same { IsPermutation readings.old readings.new }
    ensures ordered { IsNonDecreasingBy (λ r. r.client.number) readings.new }
{
    readings.sort_unstable_by_key(|reading| reading.client.number());
}
