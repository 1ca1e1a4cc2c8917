ghost use Rattle.std.specs.Prelude.{◌≡◌, ◌≤◌, ◌<◌, ◌+◌, ◌-◌, ◌++◌, ℕ, [], Ok, length, map};
ghost use Rattle.std.specs.Prelude.{flat_map};
ghost use Rattle.std.specs.Prelude.{All, IsTrue, IfOk, OnOk, OnErr, count_by, slice_index_or};
ghost use Rattle.tk_shape.specs.declared.shape.Shape.{Shape};
ghost use Rattle.std.specs.List.{list_all};
ghost use Rattle.tk_io.specs.Content.{Rose};
ghost use Rattle.tk_shape.specs.Lengths.{turn_count};
ghost use Rattle.tk_schedule.specs.Schedule.{is_within, is_mark, phase_of};
ghost use Rattle.tk_frames.specs.declared.write_frame.WriteFrame.{WriteFrame};
ghost use Rattle.tk_frames.specs.Spelling.{placed_frame};
ghost use Rattle.tk_report.specs.Entries.{placed_from};
ghost use Rattle.tk_report.specs.Turns.{entry_due};
ghost use Rattle.tk_run.specs.Acting.{AreFrames};
ghost use Rattle.tk_run.specs.Courses.{entries_behind, talk_seen, HasTalked};
ghost use Rattle.tk_run.specs.Rows.{AreRows};
ghost use Rattle.tk_run.specs.Threads.{TapsAfter};

use crate::talk::Talk;
use crate::turn_order::behind;
use std::alloc::{AllocGlobal, Global};
use std::thread;
use std::thread::Threads;
use tk_frames::{Entry, Placed, encode_placed, encode_record};
use tk_io::{Failed, Taps};
use tk_schedule::{Item, place};
use tk_shape::{Bytes, Memory, Shape};

/// The frames of a turn's entries, as every server sees them.
pub(crate) fn entries_from(
    alloc: Global,
    shape: &Shape,
    turn: u32,
    order: &[Item],
    frames: &[Bytes],
) -> Result<Vec<u8>, Memory>
    requires turn_in { turn < turn_count shape.now }
    requires within { IsTrue (list_all (is_within shape.now.clients) order.now) }
    requires marks { count_by is_mark order.now ≤ 1 }
    requires counted { length order.now ≤ shape.now.clients + 1 }
    requires frames { (write : ℕ → WriteFrame) × AreFrames shape.now write frames.now }
    ensures { (write : ℕ → WriteFrame) → AreFrames shape.now write frames.now
        → IfOk result (λ bytes. bytes.items ≡ flat_map placed_frame
        (placed_from write (entries_behind shape.now turn + 1) (phase_of shape.now turn)
        order.now)) }
{
    let mut bytes = Vec::new(alloc);
    let start = behind(shape, turn);
    let (phase, _) = place(shape, turn);
    'items: for (i, item) in order.iter().enumerate() {
        let position = start + i as u64 + 1;
        put_entry(phase, position, item, frames, &mut bytes)?;
    }
    Ok(bytes)
}

/// Appends the frame of an item's entry at a position, in a turn of this phase.
fn put_entry(
    phase: u32,
    position: u64,
    item: &Item,
    frames: &[Bytes],
    out: &mut Vec<u8>,
) -> Result<(), Memory>
    requires { (shape : Shape) × (write : ℕ → WriteFrame) × AreFrames shape write frames.now
        × IsTrue (is_within shape.clients item.now) }
    ensures { (shape : Shape) (write : ℕ → WriteFrame) → AreFrames shape write frames.now
        → IsTrue (is_within shape.clients item.now) → OnOk result (out.new.items ≡ out.old.items
        ++ placed_frame (record { position = position; entry = entry_due write phase item.now })) }
{
    match item {
        Item::Client(client) => encode_record(position, frames[*client as usize].as_slice(), out),
        Item::Publish => {
            let entry = Entry::Mark(phase);
            encode_placed(&Placed { position, entry }, out)
        }
    }
}

/// What a server saw of a turn, if there was memory.
type Sight = Result<Bytes, Memory>;

/// What each server saw of a turn: its entries, and then each read with the reply. The workers
/// write it for several servers at once.
pub(crate) fn sights_from<R: Threads + Sync + AllocGlobal>(
    rt: &R,
    servers: u32,
    entries: &[u8],
    talks: &[Talk],
    workers: u32,
) -> Result<Vec<Bytes>, Memory>
    requires workers { 1 ≤ workers }
    requires talked { All (HasTalked servers) talks.now }
    ensures { IfOk result (λ v. AreRows servers
        (λ i. entries.now ++ flat_map (talk_seen i) talks.now) v.items) }
{
    let alloc = rt.alloc();
    let mut sights = unseen(alloc, servers)?;
    let work = |server: usize, sight: &mut Sight|
        requires { (n : ℕ) × (server < n) × All (HasTalked n) talks.now }
        ensures { IfOk sight.exit.now (λ bytes. bytes
            ≡ entries.entry.now ++ flat_map (talk_seen server) talks.entry.now) }
    { *sight = sight_from(alloc, server, entries, talks) };
    thread::for_each_mut(rt, sights.as_mut_slice(), workers as usize, &work);
    all_seen(alloc, sights)
}

/// A place for what each of so many servers saw.
fn unseen(alloc: Global, servers: u32) -> Result<Vec<Sight>, Memory>
    ensures { IfOk result (λ v. length v.items ≡ servers) }
{
    let mut sights = Vec::new(alloc);
    'servers: for _server in 0..servers {
        sights.push(Err(Memory))?;
    }
    Ok(sights)
}

/// What all servers saw, if there was memory for each.
fn all_seen(alloc: Global, sights: Vec<Sight>) -> Result<Vec<Bytes>, Memory>
    ensures { IfOk result (λ v. sights.items ≡ map Ok v.items) }
{
    let mut seen = Vec::new(alloc);
    'servers: for sight in sights {
        seen.push(sight?)?;
    }
    Ok(seen)
}

/// What a server saw of a turn.
fn sight_from(alloc: Global, server: usize, entries: &[u8], talks: &[Talk]) -> Result<Bytes, Memory>
    requires { (servers : ℕ) × (server < servers) × All (HasTalked servers) talks.now }
    ensures { IfOk result
        (λ bytes. bytes ≡ entries.now ++ flat_map (talk_seen server) talks.now) }
{
    let mut bytes = Vec::from_slice(alloc, entries)?;
    'talks: for talk in talks {
        bytes.extend_from_slice(talk.asked[server].as_slice())?;
        bytes.extend_from_slice(talk.replies[server].as_slice())?;
    }
    Ok(Bytes::from_vec(bytes))
}

/// Gives each server's tap what the server saw, in one call a server.
pub(crate) fn give_sights<T: Taps>(sights: &[Bytes], taps: &mut T) -> Result<(), Failed>
    requires { length sights.now ≤ 8 }
    ensures taps { TapsAfter result (length sights.now)
        (λ j. slice_index_or sights.now (j - 1) []) (T.tap taps.old) (T.tap taps.new) }
    ensures rose { OnErr result (Rose (T.faults taps.old) (T.faults taps.new)) }
    ensures counts { T.faults taps.old ≤ T.faults taps.new }
{
    'giving: for (i, sight) in sights.iter().enumerate() {
        taps.put(i as u32 + 1, sight.as_slice())?;
    }
    Ok(())
}
