ghost use Rattle.std.specs.Prelude.{◌≡◌, ◌≤◌};
ghost use Rattle.tk_frames.specs.InOrder.{IsOrder};
ghost use Rattle.tk_order.specs.Seats.{BeginOne};

use crate::{Cluster, Pass};
use std::sync::Wait;
use tk_order::Naming;
use tk_replica::Held;

impl<B: Naming> Cluster<B> {
    /// A server's replica, whose lock is held for as long as the answer lives. What was applied to
    /// it is in order; its own calls lend the state that stands for it, and say that it begins what
    /// a seat has seen.
    pub fn hold<R: Wait>(&self, rt: &R, server: u32) -> Held<'_, B>
        requires { (1 ≤ server) × (server ≤ B.shape.servers) }
        ensures { IsOrder B.shape result }
    {
        let held = self.replicas[(server - 1) as usize].hold(rt);
        let _state = held.state();
        held
    }

    /// What was applied to a replica that is held is the first entries of the cluster's order: it and what any pass has
    /// seen begin one list.
    pub fn agree(&self, held: &mut Held<'_, B>, pass: &mut Pass<B>)
        ensures held { held.new ≡ held.old }
        ensures pass { pass.new ≡ pass.old }
        ensures list { BeginOne held.old pass.old.seen }
    {
        pass.agree(&self.order, held);
    }
}
