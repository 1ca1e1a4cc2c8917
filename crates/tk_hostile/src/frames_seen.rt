ghost use Rattle.std.specs.Prelude.{◌≡◌, ◌++◌, ◌≤◌, IfOk, OnOk, OnErr};
ghost use Rattle.tk_schedule.specs.Schedule.{IsLegal};
ghost use Rattle.tk_hostile.specs.Given.{sums_at};
ghost use Rattle.tk_hostile.specs.Walks.{wrong_run, frames_kept};
ghost use Rattle.tk_hostile.specs.Wrong as told;

use crate::replies::Replies;
use crate::sides::Sides;
use crate::walk::{Walk, walk_all};
use std::alloc::Global;
use tk_privacy::all_frames;
use tk_report::Plan;
use tk_schedule::History;
use tk_script::Script;
use tk_shape::{Bytes, Memory};
use tk_words::{DrawnDraws, Draws};

/// Appends the frames that a server sees of a run where all servers but the hidden one reply with
/// these sums: turn after turn its entries in order, and then what each client asks of that server.
/// Where memory is wanting nothing is appended.
pub fn wrong_view(
    alloc: Global,
    script: &Script,
    draws: &DrawnDraws,
    history: &History,
    hidden: u32,
    replies: &Replies,
    server: u32,
    out: &mut Vec<Bytes>,
) -> Result<(), Memory>
    requires one_shape { ⟦<DrawnDraws as Draws>⟧.shape draws.now ≡ script.now.shape }
    requires replies { replies.now.shape ≡ script.now.shape }
    requires legal { IsLegal script.now.shape history.now }
    requires hidden_low { 1 ≤ hidden }
    requires hidden_high { hidden ≤ script.now.shape.servers }
    requires low { 1 ≤ server }
    requires high { server ≤ script.now.shape.servers }
    ensures ok { let book = ⟦<DrawnDraws as Draws>⟧.book draws.now in
        OnOk result (out.new.items ≡ out.old.items
        ++ told.wrong_view script.now book history.now hidden (sums_at replies.now) server) }
    ensures err { OnErr result (out.new.items ≡ out.old.items) }
{
    let plan = Plan {
        script,
        draws,
        history,
    };
    let walk = Walk {
        plan: &plan,
        replies,
        sides: Sides {
            hidden,
            asked: hidden,
            seen: server,
        },
    };
    let mut frames = frames_seen(alloc, &walk)?;
    out.append(&mut frames)?;
    Ok(())
}

/// The frames that the seen server sees.
fn frames_seen<D: Draws>(alloc: Global, walk: &Walk<D>) -> Result<Vec<Bytes>, Memory>
    ensures { let run = wrong_run walk.now.plan.now walk.now.replies.now walk.now.sides in
        IfOk result (λ frames. frames.items ≡ frames_kept run) }
{
    let fold = walk_all(alloc, walk)?;
    all_frames(alloc, walk.plan, fold.reads.as_slice())
}
