//! The reads of a turn of threads, as the servers answer them.
ghost use Rattle.std.specs.Prelude.{◌≡◌, ◌<◌, ◌≤◌, ℕ, List, All, IfOk, OnOk, length, slice_index_or};
ghost use Rattle.std.specs.Thread.{IsSync};
ghost use Rattle.tk_shape.specs.declared.shape.Shape.{Shape};
ghost use Rattle.tk_frames.specs.declared.entry.Placed.{Placed};
ghost use Rattle.tk_run.specs.declared.stations.Station.{Station as StationOf};
ghost use Rattle.tk_run.specs.Reading.{EachAt};
ghost use Rattle.tk_run.specs.Answering.{AreAllAsked, IsAnswered, AllStand, AreGiven};
ghost use Rattle.tk_run.specs.Answering.{AreReplies, AllReply, ReplyDue};
ghost use Rattle.tk_run.specs.Ranging.{bytes_made};

use crate::crew::Crew;
use crate::kept::Kept;
use crate::replies::replies_of;
use crate::side_by_side::side_by_side;
use crate::stations::{Replies, Station, cleared, stations_for};
use crate::sums::Sums;
use crate::talk::Reading;
use std::alloc::AllocGlobal;
use std::thread::Threads;
use std::{mem, thread};
use tk_shape::{Bytes, Memory};

/// So many servers answer the reads of all clients, and keep their blocks in ranges.
pub(crate) fn answer_all<A: Sums, R: Threads + Sync + AllocGlobal>(
    rt: &R,
    sums: &A,
    kept: &mut Vec<Option<Kept>>,
    servers: u32,
    readings: &mut [Reading],
    crew: Crew,
) -> Result<(), Memory>
    requires asked { (shape : Shape) × (servers ≡ shape.servers)
        × All (AreAllAsked shape) readings.old }
    requires stand { (shape : Shape) × (E : List Placed) × AllStand readings.old shape E }
    ensures { OnOk result
        (EachAt (IsAnswered (bytes_made (A.sum sums.now) crew.shards) (AllStand readings.old))
        readings.old readings.new) }
{
    let answers = answers_from(rt, sums, kept, servers, readings, crew)?;
    give_all(readings, answers)
}

/// What so many servers reply, several of them at once, which share the crew.
fn answers_from<A: Sums, R: Threads + Sync + AllocGlobal>(
    rt: &R,
    sums: &A,
    kept: &mut Vec<Option<Kept>>,
    servers: u32,
    readings: &[Reading],
    crew: Crew,
) -> Result<Vec<Replies>, Memory>
    requires asked { (shape : Shape) × (servers ≡ shape.servers)
        × All (AreAllAsked shape) readings.now }
    ensures counted { IfOk result (λ v. length v.items ≡ servers) }
    ensures replies { IfOk result
        (λ v. AllReply (bytes_made (A.sum sums.now) crew.shards) readings.now v.items) }
{
    let alloc = rt.alloc();
    let before = mem::replace(kept, Vec::new(alloc));
    let mut stations = stations_for(alloc, servers, before)?;
    let vectors = 2 * readings.len() as u64;
    let sides = side_by_side(servers, vectors, crew);
    reply_at(rt, sums, stations.as_mut_slice(), readings, sides, crew);
    let (after, answers) = cleared(alloc, stations)?;
    *kept = after;
    Ok(answers)
}

/// What each server replies is put at its station, by so many servers at once, which share the crew.
fn reply_at<A: Sums, R: Threads + Sync + AllocGlobal>(
    rt: &R,
    sums: &A,
    stations: &mut [Station],
    readings: &[Reading],
    sides: u32,
    crew: Crew,
)
    requires asked { (shape : Shape) × (length stations.old ≡ shape.servers)
        × All (AreAllAsked shape) readings.now }
    requires sides { (1 ≤ sides) × (sides ≤ crew.workers) }
    ensures counted { length stations.new ≡ length stations.old }
    ensures replies { (i : ℕ) (d : StationOf) → i < length stations.new
        → AreReplies (bytes_made (A.sum sums.now) crew.shards) i readings.now
        (slice_index_or stations.new i d).replies }
{
    let each = crew.part(sides);
    let work = |server: usize, station: &mut Station|
        requires { IsSync A.row × IsSync R.row × ((shape : Shape) × (server < shape.servers)
            × All (AreAllAsked shape) readings.now) }
        ensures { AreReplies (bytes_made (A.sum sums.entry.now) each.shards) server
            readings.entry.now station.exit.now.replies }
    { station.replies = replies_of(rt, sums, &mut station.kept, server, readings, each) };
    thread::for_each_mut(rt, stations, sides as usize, &work);
}

/// Each client is given the replies of all servers, in their order.
fn give_all(readings: &mut [Reading], answers: Vec<Replies>) -> Result<(), Memory>
    requires asked { (shape : Shape) × (length answers.items ≡ shape.servers)
        × All (AreAllAsked shape) readings.old }
    requires stand { (shape : Shape) × (E : List Placed) × AllStand readings.old shape E }
    requires replies { (due : ReplyDue) × AllReply due readings.old answers.items }
    ensures { (due : ReplyDue) → AllReply due readings.old answers.items → OnOk result
        (EachAt (IsAnswered due (AllStand readings.old)) readings.old readings.new) }
{
    'servers: for replies in answers {
        let replies = replies?;
        give(readings, replies)?;
    }
    Ok(())
}

/// Each client is given the reply of its place.
fn give(readings: &mut [Reading], mut replies: Vec<Bytes>) -> Result<(), Memory>
    requires { length replies.items ≡ length readings.old }
    ensures { OnOk result (AreGiven replies.items readings.old readings.new) }
{
    'giving: while let Some(reply) = replies.pop() {
        readings[replies.len()].talk.replies.push(reply)?;
    }
    Ok(())
}
