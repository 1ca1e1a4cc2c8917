//! Servers that go on from a checkpoint.
ghost use Rattle.std.specs.Prelude.{◌≡◌, ◌≢◌, ◌++◌, ◌∷◌, [], ◌<◌, ◌≤◌, ℕ, true, false, List, length, IsOk, IfErr, OnOk};
ghost use Rattle.tk_frames.specs.declared.entry.Placed.{Placed};
ghost use Rattle.tk_replica.specs.Restoring.{EndsWithMark};
ghost use Rattle.tk_checkpoint.specs.Saved.{saved};
ghost use Rattle.tk_run.specs.Keeping.{AreAccepted, AreGiven, HaveBegunAnew, KeptAndRefused};
ghost use Rattle.tk_run.specs.Keeping.{OneRefuses, is_due};
ghost use Rattle.tk_run.specs.Resumption.{IfRefused};
ghost use Rattle.tk_run.specs.Servers.{AreReady, AreServers, WhereAlike, alike, nothing_seen};

use crate::keeper::Keeper;
use crate::resume_error::ResumeError;
use crate::server::Server;
use crate::servers::Servers;
use std::alloc::Global;
use tk_shape::Shape;

/// Where this turn is due, the first server's checkpoint is kept, and each server begins anew from
/// what it is given.
pub(crate) fn go_on_before<K: Keeper>(
    alloc: Global,
    shape: &Shape,
    due: Option<u32>,
    turn: u32,
    servers: &mut Servers,
    keeper: &mut K,
) -> Result<(), ResumeError>
    requires { (0 < length servers.old.list.items) × (length servers.old.list.items ≤ 8) }
    ensures nothing { is_due due turn ≡ false → IsOk result }
    ensures same { is_due due turn ≡ false → keeper.new ≡ keeper.old }
    ensures left { is_due due turn ≡ false → servers.new ≡ servers.old }
    ensures taken { servers.new.taken ≡ servers.old.taken }
    ensures kept { is_due due turn ≡ true → (E : List Placed) (seen : ℕ → List ℕ)
        → AreServers shape.now (alike E) seen servers.old.list.items
        → OnOk result (K.kept keeper.new ≡ K.kept keeper.old ++ saved shape.now E ∷ []) }
    ensures accepted { is_due due turn ≡ true → WhereAlike shape.now servers.old.list.items
        (λ E. OnOk result (AreAccepted shape.now E (K.gives keeper.new))) }
    ensures refused { is_due due turn ≡ true → WhereAlike shape.now servers.old.list.items
        (λ E. IfRefused result
        (KeptAndRefused shape.now E (K.kept keeper.old) K.kept K.gives keeper.new)) }
    ensures anew { is_due due turn ≡ true
        → OnOk result (HaveBegunAnew shape.now (K.gives keeper.new) servers.new.list.items) }
    ensures ready { (E : List Placed) → AreReady shape.now E servers.old.list.items
        → OnOk result (AreReady shape.now E servers.new.list.items) }
    ensures stand { is_due due turn ≡ true → (E : List Placed) (given : ℕ → List Placed)
        → AreServers shape.now (alike E) nothing_seen servers.old.list.items
        → AreGiven shape.now E (K.gives keeper.new) given
        → OnOk result (AreServers shape.now given nothing_seen servers.new.list.items) }
    ensures not_taps { IfErr result (λ e. e ≢ ResumeError.Taps) }
{
    if due != Some(turn) {
        return Ok(());
    }
    let bytes = servers.list[0].saved(alloc)?;
    keeper.keep(alloc, bytes.as_slice())?;
    go_on_all(alloc, shape, keeper, servers.list.as_mut_slice())
}

/// Each server begins anew from what the keeper gives it.
fn go_on_all<K: Keeper>(
    alloc: Global,
    shape: &Shape,
    keeper: &K,
    servers: &mut [Server],
) -> Result<(), ResumeError>
    requires { length servers.old ≤ 8 }
    ensures accepted { WhereAlike shape.now servers.old
        (λ E. OnOk result (AreAccepted shape.now E (K.gives keeper.now))) }
    ensures refused { WhereAlike shape.now servers.old
        (λ E. IfRefused result (OneRefuses shape.now E (K.gives keeper.now))) }
    ensures anew { OnOk result (HaveBegunAnew shape.now (K.gives keeper.now) servers.new) }
    ensures ready { (E : List Placed) → AreReady shape.now E servers.old
        → OnOk result (AreReady shape.now E servers.new) }
    ensures stand { (E : List Placed) (given : ℕ → List Placed)
        → AreServers shape.now (alike E) nothing_seen servers.old → EndsWithMark E
        → AreGiven shape.now E (K.gives keeper.now) given
        → OnOk result (AreServers shape.now given nothing_seen servers.new) }
    ensures not_taps { IfErr result (λ e. e ≢ ResumeError.Taps) }
{
    'beginning: for (i, server) in servers.iter_mut().enumerate() {
        let bytes = keeper.give(alloc, i as u32 + 1)?;
        server.go_on(alloc, shape, bytes.as_slice())?;
    }
    Ok(())
}
