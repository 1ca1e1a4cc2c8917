//! The replies of a turn of threads, as the clients take them.
ghost use Rattle.std.specs.Prelude.{◌≡◌, true, All, IsSome, length, OnOk};
ghost use Rattle.std.specs.Thread.{IsSync};
ghost use Rattle.tk_words.specs.Words.{words_of};
ghost use Rattle.tk_client.specs.Client.{after_replies};
ghost use Rattle.tk_run.specs.Reading.{MayTakeEntry, TookReplies, EachAt};

use crate::sums::Sums;
use crate::talk::{Reading, Round, Talk, all_done};
use std::thread;
use std::thread::Threads;
use tk_client::Client;
use tk_shape::Memory;
use tk_words::Draws;

/// A client takes the replies to its read.
fn take<D: Draws>(draws: &D, client: &mut Client, talk: &Talk) -> Result<(), Memory>
    requires same { client.old.shape ≡ D.shape draws.now }
    requires open { IsSome client.old.read }
    requires counted { length talk.now.replies.items ≡ client.old.shape.servers }
    ensures { let words = words_of client.old.shape (D.book draws.now) in OnOk result
        (client.new ≡ after_replies words talk.now.replies.items client.old) }
{
    let alloc = *talk.replies.allocator();
    // what a set's servers send are replies to what was asked, so that only memory may be wanting
    let Ok(()) = client.take_replies(alloc, draws, talk.replies.as_slice()) else {
        return Err(Memory);
    };
    Ok(())
}

/// A client takes the replies to its read, and notes whether it could.
fn take_on<D: Draws>(draws: &D, reading: &mut Reading)
    requires { MayTakeEntry (D.shape draws.now) reading.old }
    ensures { reading.new.done ≡ true → TookReplies (D.book draws.now) reading.old reading.new }
{
    reading.done = take(draws, &mut reading.client, &reading.talk).is_ok();
}

/// All clients take the replies to their reads at once, in as many threads as there are workers but
/// in two at least.
pub(crate) fn take_all<'a, D: Draws, A: Sums, R: Threads + Sync>(
    rt: &R,
    round: &Round<'a, D, A>,
    readings: &mut [Reading],
) -> Result<(), Memory>
    requires { All (MayTakeEntry (D.shape round.now.draws.now)) readings.old }
    ensures { OnOk result
        (EachAt (TookReplies (D.book round.now.draws.now)) readings.old readings.new) }
{
    let draws = round.draws;
    let work = |_i: usize, reading: &mut Reading|
        requires { IsSync D.row × MayTakeEntry (D.shape draws.now) reading.now }
        ensures { reading.exit.now.done ≡ true
            → TookReplies (D.book draws.entry.now) reading.entry.now reading.exit.now }
    { take_on(draws, reading) };
    thread::for_each_mut(rt, readings, round.crew.workers.max(2) as usize, &work);
    if !all_done(readings) {
        return Err(Memory);
    }
    Ok(())
}
