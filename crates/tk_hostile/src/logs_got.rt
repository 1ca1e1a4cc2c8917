ghost use Rattle.std.specs.Prelude.{◌≡◌, ◌≤◌, IfOk};
ghost use Rattle.tk_schedule.specs.Schedule.{IsLegal};
ghost use Rattle.tk_hostile.specs.Given.{sums_at};
ghost use Rattle.tk_hostile.specs.Wrong.{AreWrongedClients};

use crate::replies::Replies;
use crate::sides::Sides;
use crate::walk::{Walk, walk_all};
use std::alloc::Global;
use tk_client::Client;
use tk_report::Plan;
use tk_schedule::History;
use tk_script::Script;
use tk_shape::Memory;
use tk_words::{DrawnDraws, Draws};

/// The clients at the end of a run where all servers but the hidden one reply with these sums.
pub fn wrong_logs(
    alloc: Global,
    script: &Script,
    draws: &DrawnDraws,
    history: &History,
    hidden: u32,
    replies: &Replies,
) -> Result<Vec<Client>, Memory>
    requires one_shape { ⟦<DrawnDraws as Draws>⟧.shape draws.now ≡ script.now.shape }
    requires replies { replies.now.shape ≡ script.now.shape }
    requires legal { IsLegal script.now.shape history.now }
    requires low { 1 ≤ hidden }
    requires high { hidden ≤ script.now.shape.servers }
    ensures { let book = ⟦<DrawnDraws as Draws>⟧.book draws.now in
        IfOk result (λ clients.
        AreWrongedClients script.now book history.now hidden (sums_at replies.now) clients.items) }
{
    let plan = Plan {
        script,
        draws,
        history,
    };
    let walk = Walk {
        plan: &plan,
        replies,
        sides: Sides {
            hidden,
            asked: hidden,
            seen: hidden,
        },
    };
    let fold = walk_all(alloc, &walk)?;
    Ok(fold.group.clients)
}
