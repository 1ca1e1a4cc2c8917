//! What servers see of a turn, and how it goes to their taps.
ghost use Rattle.std.specs.Prelude.{◌≡◌, ◌-◌, ◌≤◌, [], length, map, All, slice_index_or, IfOk};
ghost use Rattle.std.specs.Prelude.{OnOk, OnErr};
ghost use Rattle.std.specs.List.{range_with_len};
ghost use Rattle.tk_io.specs.Content.{Rose};
ghost use Rattle.tk_io.specs.Tapped.{TapsGain, TapsGainFronts, TapsKeepBut};
ghost use Rattle.tk_relay.specs.Reads.{IsReplied, sight_seen};

use crate::relayed_read::RelayedRead;
use std::alloc::Global;
use tk_io::{Failed, Taps};
use tk_shape::{Bytes, Memory};

/// What each server sees of a turn with these entries and reads.
pub(crate) fn sights_of(
    alloc: Global,
    servers: u32,
    entries: &[u8],
    reads: &[RelayedRead],
) -> Result<Vec<Bytes>, Memory>
    requires few { servers ≤ 8 }
    requires replied { All (IsReplied servers) reads.now }
    ensures { IfOk result (λ sights. sights.items
        ≡ map (sight_seen entries.now reads.now) (range_with_len 1 servers)) }
{
    let mut sights = Vec::new(alloc);
    for server in 1..servers + 1 {
        sights.push(sight_of(alloc, server, entries, reads)?)?;
    }
    Ok(sights)
}

/// What a server sees of a turn with these entries and reads.
fn sight_of(
    alloc: Global,
    server: u32,
    entries: &[u8],
    reads: &[RelayedRead],
) -> Result<Bytes, Memory>
    requires low { 1 ≤ server }
    requires replied { All (λ r. server ≤ length r.parts.items) reads.now
        × All (λ r. server ≤ length r.replies.items) reads.now }
    ensures { IfOk result (λ bytes. bytes ≡ sight_seen entries.now reads.now server) }
{
    let mut bytes = Vec::from_slice(alloc, entries)?;
    for read in reads {
        read.see(server, &mut bytes)?;
    }
    Ok(Bytes::from_vec(bytes))
}

/// Gives each server's tap what the server saw, in one call a server.
pub(crate) fn give_sights<T: Taps>(sights: &[Bytes], taps: &mut T) -> Result<(), Failed>
    requires { length sights.now ≤ 8 }
    ensures ok { OnOk result (TapsGain (length sights.now)
        (λ j. slice_index_or sights.now (j - 1) []) (T.tap taps.old) (T.tap taps.new)) }
    ensures err { OnErr result (TapsGainFronts (length sights.now)
        (λ j. slice_index_or sights.now (j - 1) []) (T.tap taps.old) (T.tap taps.new)) }
    ensures others { TapsKeepBut (length sights.now) (T.tap taps.old) (T.tap taps.new) }
    ensures rose { OnErr result (Rose (T.faults taps.old) (T.faults taps.new)) }
    ensures counts { T.faults taps.old ≤ T.faults taps.new }
{
    'giving: for (i, sight) in sights.iter().enumerate() {
        taps.put(i as u32 + 1, sight.as_slice())?;
    }
    Ok(())
}
