use crate::opened::open_clients;
use crate::plan::Plan;
use crate::said::say_turn;
use crate::takes::Takes;
use crate::turn_writes::write_turn;
use std::alloc::Global;
use tk_client::Client;
use tk_script::Script;
use tk_shape::Memory;
use tk_words::Draws;

/// The clients of a run, by number, and how many of the script's texts were said.
#[derive(Drop)]
pub struct Group {
    pub said: usize,
    pub clients: Vec<Client>,
}

impl Group {
    ghost use Rattle.std.specs.Prelude.{◌≡◌, ◌+◌, ◌<◌, ℕ, length, IfOk, OnOk};
    ghost use Rattle.tk_shape.specs.Lengths.{turn_count};
    ghost use Rattle.tk_client.specs.Reader.{Reader};
    ghost use Rattle.tk_report.specs.Clients.{AreKnowing, HaveSaid, known_first};
    ghost use Rattle.tk_report.specs.Groups.{IsGroup, IsSomeGroup};
    ghost use Rattle.tk_report.specs.Queues.{said_before};
    ghost use Rattle.tk_report.specs.Taking.{IsBeforeTurn, TookTurn};

    /// The clients of a script before the first turn.
    pub fn open(alloc: Global, script: &Script) -> Result<Group, Memory>
        ensures said { IfOk result (λ g. g.said ≡ 0) }
        ensures clients { IfOk result (λ g.
            AreKnowing script.now (known_first script.now) 0 g.clients.items) }
    {
        Ok(Group {
            said: 0,
            clients: open_clients(alloc, script)?,
        })
    }

    /// The texts of a turn are said.
    pub fn say(&mut self, alloc: Global, script: &Script, turn: u32) -> Result<(), Memory>
        requires turn_in { turn < turn_count script.now.shape }
        requires said { self.old.said ≡ said_before script.now turn }
        requires counted { length self.old.clients.items ≡ script.now.shape.clients }
        ensures counted { length self.new.clients.items ≡ length self.old.clients.items }
        ensures said { OnOk result (self.new.said ≡ said_before script.now (turn + 1)) }
        ensures clients { (knows : ℕ → Reader)
            → AreKnowing script.now knows turn self.old.clients.items
            → OnOk result (HaveSaid script.now knows turn self.new.clients.items) }
    {
        self.said = say_turn(alloc, script, turn, self.said, self.clients.as_mut_slice())?;
        Ok(())
    }

    /// The texts of a turn are said, and each of its entries is taken in the order of the history:
    /// what each client writes, and the mark where the turn closes a phase. What clients know as
    /// readers stays. Where memory runs out nothing is promised of clients and taker.
    pub fn write<D: Draws, T: Takes>(
        &mut self,
        alloc: Global,
        plan: &Plan<D>,
        turn: u32,
        taker: &mut T,
    ) -> Result<(), Memory>
        requires turn_in { turn < turn_count plan.now.script.now.shape }
        requires group { IsSomeGroup plan.now.script.now turn self.old }
        requires taker { IsBeforeTurn T.took plan.now.script.now (D.book plan.now.draws.now)
            plan.now.history.now turn taker.old }
        ensures group { let S = plan.now.script.now in (knows : ℕ → Reader)
            → IsGroup S knows turn self.old → OnOk result (IsGroup S knows (turn + 1) self.new) }
        ensures taker { OnOk result (TookTurn T.took plan.now.script.now
            (D.book plan.now.draws.now) plan.now.history.now turn taker.old taker.new) }
    {
        self.say(alloc, plan.script, turn)?;
        let clients = self.clients.as_mut_slice();
        write_turn(alloc, plan, turn, clients, taker)?;
        Ok(())
    }
}
