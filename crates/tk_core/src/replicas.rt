//! What is asked of all replicas together.
ghost use Rattle.std.specs.Prelude.{◌≡◌, nat_lt, position};
ghost use Rattle.tk_replica.specs.Replica.{ReplicaView};
ghost use Rattle.tk_core.specs.World.{AreHolding, AreReleased};

use tk_replica::ReplicaState;

/// The first replica that has applied fewer entries than these.
pub(crate) fn first_below(replicas: &[ReplicaState], count: u64) -> Option<usize>
    ensures { result ≡ position (λ (r : ReplicaView). nat_lt r.applied count) replicas.now }
{
    replicas
        .iter()
        .position(|replica| replica.applied() < count)
}

/// Each replica lets the epochs below `e` go.
pub(crate) fn release_all(replicas: &mut [ReplicaState], e: u32)
    requires { AreHolding e replicas.old }
    ensures { AreReleased e replicas.old replicas.new }
{
    for replica in replicas.iter_mut() {
        replica.release(e);
    }
}
