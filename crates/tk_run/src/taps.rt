ghost use Rattle.std.specs.Prelude.{◌≡◌, ◌≢◌, ◌≤◌, ℕ, [], List, length, OnOk, OnErr};
ghost use Rattle.tk_io.specs.Content.{Rose, gained};
ghost use Rattle.tk_shape.specs.declared.shape.Shape.{Shape};
ghost use Rattle.tk_frames.specs.declared.entry.Placed.{Placed};
ghost use Rattle.tk_run.specs.Servers.{IsServerAt, IsReadyServer, AreReady, AreServers, WhateverItHolds};
ghost use Rattle.tk_run.specs.Servers.{WhateverTheyHold, nothing_seen};
ghost use Rattle.tk_io.specs.Tapped.{GainsFront, TapsGain, TapsGainFronts, TapsKeepBut};

use crate::server::Server;
use tk_io::{Failed, Taps};

/// Gives what each server saw to its tap, in one call a server; then nothing is seen that isn't
/// given.
pub(crate) fn give_all<T: Taps>(servers: &mut [Server], taps: &mut T) -> Result<(), Failed>
    requires { length servers.old ≤ 8 }
    ensures ready { (shape : Shape) (E : List Placed) → AreReady shape E servers.old
        → OnOk result (AreReady shape E servers.new) }
    ensures servers { WhateverTheyHold servers.old
        (λ shape Es seen. OnOk result (AreServers shape Es nothing_seen servers.new)) }
    ensures ok { WhateverTheyHold servers.old
        (λ shape Es seen. OnOk result (TapsGain shape.servers seen (T.tap taps.old) (T.tap taps.new))) }
    ensures err { WhateverTheyHold servers.old
        (λ shape Es seen. OnErr result (TapsGainFronts shape.servers seen (T.tap taps.old) (T.tap taps.new))) }
    ensures others { TapsKeepBut (length servers.old) (T.tap taps.old) (T.tap taps.new) }
    ensures rose { OnErr result (Rose (T.faults taps.old) (T.faults taps.new)) }
    ensures counts { T.faults taps.old ≤ T.faults taps.new }
{
    'giving: for (i, server) in servers.iter_mut().enumerate() {
        give(server, i as u32 + 1, taps)?;
    }
    Ok(())
}

/// Gives what a server saw to the tap of its number.
fn give<T: Taps>(server: &mut Server, number: u32, taps: &mut T) -> Result<(), Failed>
    requires low { 1 ≤ number }
    requires high { number ≤ 8 }
    ensures ready { (shape : Shape) (E : List Placed) → IsReadyServer shape E server.old
        → OnOk result (IsReadyServer shape E server.new) }
    ensures server { WhateverItHolds server.old
        (λ shape E bytes. OnOk result (IsServerAt shape E [] server.new)) }
    ensures ok { let seen = server.old.seen.items in
        OnOk result (T.tap taps.new number ≡ gained (T.tap taps.old number) seen) }
    ensures err { let seen = server.old.seen.items in
        OnErr result (GainsFront (T.tap taps.old number) (T.tap taps.new number) seen) }
    ensures others { (j : ℕ) → j ≢ number → T.tap taps.new j ≡ T.tap taps.old j }
    ensures rose { OnErr result (Rose (T.faults taps.old) (T.faults taps.new)) }
    ensures counts { T.faults taps.old ≤ T.faults taps.new }
{
    taps.put(number, server.seen.as_slice())?;
    server.seen.clear();
    Ok(())
}
