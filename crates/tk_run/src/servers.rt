ghost use Rattle.std.specs.Prelude.{◌≡◌, ◌<◌, ◌++◌, ◌∷◌, [], List, length, IfOk, OnOk};
ghost use Rattle.tk_shape.specs.declared.shape.Shape.{Shape};
ghost use Rattle.tk_frames.specs.declared.entry.Placed.{Placed};
ghost use Rattle.tk_frames.specs.Spelling.{placed_frame};
ghost use Rattle.tk_frames.specs.InOrder.{IsNext};
ghost use Rattle.tk_report.specs.Displaced.{displaced_in};
ghost use Rattle.tk_run.specs.Servers.{AreServers, AreReady, TookOn, MayTakeAll, WhateverTheyHold};
ghost use Rattle.tk_run.specs.Servers.{alike, nothing_seen, with_more};

use crate::server::Server;
use std::alloc::Global;
use tk_frames::Placed;
use tk_report::Takes;
use tk_shape::{Memory, Shape};

/// The servers of a run, server 1 first.
#[derive(Drop)]
pub(crate) struct Servers {
    pub list: Vec<Server>,
    /// How many entries they took.
    pub taken: u64,
}

impl Servers {
    /// How many writes were displaced when they came, as the first server counted them.
    pub(crate) fn displaced(&self) -> u32
        requires { 0 < length self.now.list.items }
        ensures { WhateverTheyHold self.now.list.items
            (λ shape Es seen. result ≡ displaced_in shape (Es 1)) }
    {
        self.list[0].displaced
    }
}

/// The servers of a shape, before any entry.
pub(crate) fn open_servers(alloc: Global, shape: &Shape) -> Result<Servers, Memory>
    ensures taken { IfOk result (λ servers. servers.taken ≡ 0) }
    ensures ready { IfOk result (λ servers. AreReady shape.now [] servers.list.items) }
    ensures servers { IfOk result
        (λ servers. AreServers shape.now (alike []) nothing_seen servers.list.items) }
{
    let mut servers = Vec::new(alloc);
    for _ in 0..shape.servers {
        servers.push(Server::open(alloc, shape)?)?;
    }
    Ok(Servers {
        list: servers,
        taken: 0,
    })
}

/// Each server sees the frame of an entry and takes it.
pub(crate) fn take_all(alloc: Global, servers: &mut [Server], placed: &Placed) -> Result<(), Memory>
    requires { MayTakeAll placed.now servers.old }
    ensures ready { (shape : Shape) (E : List Placed) → AreReady shape E servers.old
        → IsNext shape E placed.now
        → OnOk result (AreReady shape (E ++ placed.now ∷ []) servers.new) }
    ensures servers { WhateverTheyHold servers.old
        (λ shape Es seen. OnOk result (AreServers shape (with_more Es (placed.now ∷ []))
        (λ j. seen j ++ placed_frame placed.now) servers.new)) }
{
    for server in servers.iter_mut() {
        server.take(alloc, placed)?;
    }
    Ok(())
}

impl Takes for Servers {
    ghost took = { λ was shape E F is. TookOn was shape E F is };

    fn taken(&self) -> u64 {
        self.taken
    }

    fn take(&mut self, alloc: Global, placed: &Placed) -> Result<(), Memory> {
        take_all(alloc, self.list.as_mut_slice(), placed)?;
        self.taken += 1;
        Ok(())
    }

    ghost in_order = { λ was shape E F is have. have.ready.order };
}
