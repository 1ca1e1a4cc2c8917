//! The reads of a turn of threads, as the clients ask for them.
ghost use Rattle.std.specs.Prelude.{◌≡◌, true, All, OnOk};
ghost use Rattle.std.specs.Thread.{IsSync};
ghost use Rattle.tk_run.specs.Courses.{MayAsk, MayTalk};
ghost use Rattle.tk_run.specs.Reading.{AsksFor, MayReadOn, HasAsked, EachAt};

use crate::sums::Sums;
use crate::talk::{Reading, Round, Talk, all_done};
use std::thread;
use std::thread::Threads;
use tk_client::Client;
use tk_shape::Memory;
use tk_words::Draws;

/// A client asks for its read.
fn ask<D: Draws>(draws: &D, client: &mut Client, talk: &mut Talk) -> Result<(), Memory>
    requires able { MayAsk (D.shape draws.now) client.old }
    requires fits { MayTalk (D.shape draws.now) talk.old }
    ensures { OnOk result (AsksFor (D.book draws.now) client.old talk.old talk.new client.new) }
{
    let alloc = *talk.asked.allocator();
    let set = talk.set.as_ref();
    let epoch = set.number();
    client.read_frames(
        alloc,
        draws,
        talk.turn,
        epoch,
        set.filter(),
        &mut talk.asked,
    )?;
    Ok(())
}

/// A client asks for its read, and notes whether it could.
fn ask_on<D: Draws>(draws: &D, reading: &mut Reading)
    requires { MayReadOn (D.shape draws.now) reading.old }
    ensures { reading.new.done ≡ true → HasAsked (D.book draws.now) reading.old reading.new }
{
    reading.done = ask(draws, &mut reading.client, &mut reading.talk).is_ok();
}

/// All clients ask for their reads, in as many threads as there are workers.
pub(crate) fn ask_all<'a, D: Draws, A: Sums, R: Threads + Sync>(
    rt: &R,
    round: &Round<'a, D, A>,
    readings: &mut [Reading],
) -> Result<(), Memory>
    requires { All (MayReadOn (D.shape round.now.draws.now)) readings.old }
    ensures { OnOk result
        (EachAt (HasAsked (D.book round.now.draws.now)) readings.old readings.new) }
{
    let draws = round.draws;
    let work = |_i: usize, reading: &mut Reading|
        requires { IsSync D.row × MayReadOn (D.shape draws.now) reading.now }
        ensures { reading.exit.now.done ≡ true
            → HasAsked (D.book draws.entry.now) reading.entry.now reading.exit.now }
    { ask_on(draws, reading) };
    thread::for_each_mut(rt, readings, round.crew.workers as usize, &work);
    if !all_done(readings) {
        return Err(Memory);
    }
    Ok(())
}
