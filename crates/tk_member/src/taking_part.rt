//! A member's packets, from the first to the last.
ghost use Rattle.std.specs.Prelude.{◌≡◌, ◌≤◌, false, Err};
ghost use Rattle.tk_io.specs.Content.{Rose};
ghost use Rattle.tk_member.specs.Members.{is_over};
ghost use Rattle.tk_member.specs.Courses.{TakesPart, Ends, TakesNext};

use crate::fault::Fault;
use crate::member::Member;
use crate::setup::set_up;
use std::alloc::Global;
use tk_packets::Line;
use tk_words::{Draws, KeyedDraws};

/// The most bytes of the packet that sets a member up: a number, and the largest input.
const FIRST: u32 = 8_388_612;

/// The most bytes of any other packet.
const LATER: u32 = 65_536;

/// Sets a member up by the first packet, which is of its host, and takes part in its run until that is over or nothing
/// is left of the line.
pub fn take_part<L: Line>(alloc: Global, line: &mut L) -> Result<(), Fault>
    ensures part { TakesPart result (L.left line.old) (L.left line.new)
        (L.gone line.old) (L.gone line.new) }
    ensures read { result ≡ Err Fault.Read → Rose (L.read_faults line.old) (L.read_faults line.new) }
    ensures write { result ≡ Err Fault.Write → Rose (L.write_faults line.old) (L.write_faults line.new) }
    ensures reads_count { L.read_faults line.old ≤ L.read_faults line.new }
    ensures writes_count { L.write_faults line.old ≤ L.write_faults line.new }
{
    let Some(first) = line.take_packet(alloc, FIRST)? else {
        return Ok(());
    };
    let (mut member, draws) = set_up(alloc, &first)?;
    go_on(alloc, &draws, &mut member, line)
}

/// Takes part in a run.
fn go_on<L: Line>(
    alloc: Global,
    draws: &KeyedDraws,
    member: &mut Member,
    line: &mut L,
) -> Result<(), Fault>
    requires { ⟦<KeyedDraws as Draws>⟧.shape draws.now ≡ member.old.client.shape }
    ensures ends { Ends result (⟦<KeyedDraws as Draws>⟧.book draws.now) member.old
        (L.left line.old) (L.left line.new) (L.gone line.old) (L.gone line.new) }
    ensures read { result ≡ Err Fault.Read → Rose (L.read_faults line.old) (L.read_faults line.new) }
    ensures write { result ≡ Err Fault.Write → Rose (L.write_faults line.old) (L.write_faults line.new) }
    ensures reads_count { L.read_faults line.old ≤ L.read_faults line.new }
    ensures writes_count { L.write_faults line.old ≤ L.write_faults line.new }
{
    'packets: for taken in 0..u64::MAX {
        if member.is_over() {
            return Ok(());
        }
        let more = take_next(alloc, draws, member, line)?;
        if !more {
            return Ok(());
        }
    }
    Ok(())
}

/// Takes the next packet and puts what the member sends then; false where nothing is left.
fn take_next<L: Line>(
    alloc: Global,
    draws: &KeyedDraws,
    member: &mut Member,
    line: &mut L,
) -> Result<bool, Fault>
    requires one_shape { ⟦<KeyedDraws as Draws>⟧.shape draws.now ≡ member.old.client.shape }
    requires goes_on { is_over member.old ≡ false }
    ensures same { member.new.client.shape ≡ member.old.client.shape }
    ensures next { TakesNext result (⟦<KeyedDraws as Draws>⟧.book draws.now) member.old member.new
        (L.left line.old) (L.left line.new) (L.gone line.old) (L.gone line.new) }
    ensures read { result ≡ Err Fault.Read → Rose (L.read_faults line.old) (L.read_faults line.new) }
    ensures write { result ≡ Err Fault.Write → Rose (L.write_faults line.old) (L.write_faults line.new) }
    ensures reads_count { L.read_faults line.old ≤ L.read_faults line.new }
    ensures writes_count { L.write_faults line.old ≤ L.write_faults line.new }
{
    let Some(packet) = line.take_packet(alloc, LATER)? else {
        return Ok(false);
    };
    let sent = member.take(alloc, draws, &packet)?;
    line.put_packets(alloc, sent.as_slice())?;
    Ok(true)
}
