ghost use Rattle.std.specs.Prelude.{◌≡◌, map, IfOk};
ghost use Rattle.std.specs.Arc.{arc_value};
ghost use Rattle.tk_schedule.specs.Schedule.{IsLegal};
ghost use Rattle.tk_words.specs.Words.{words_of};
ghost use Rattle.tk_frames.specs.InOrder.{IsOrder};
ghost use Rattle.tk_report.specs.Displaced.{displaced_count, displaced_in};

use crate::count::Count;
use crate::fold::fold_all;
use crate::plan::Plan;
use std::alloc::Global;
use std::sync::Arc;
use tk_frames::Placed;
use tk_schedule::History;
use tk_script::Script;
use tk_shape::{Memory, Shape};
use tk_words::Draws;

/// How many writes of a run of a script are displaced when they come, where the history is this
/// one: they aren't stored, since they have no placement beside those that are.
pub fn displaced<D: Draws>(
    alloc: Global,
    script: &Script,
    draws: &D,
    history: &History,
) -> Result<u32, Memory>
    requires one_shape { D.shape draws.now ≡ script.now.shape }
    requires legal { IsLegal script.now.shape history.now }
    ensures { let S = script.now in
        let words = words_of S.shape (D.book draws.now) in
        IfOk result (λ n. n ≡ displaced_count S words history.now) }
{
    let plan = Plan {
        script,
        draws,
        history,
    };
    let fold = fold_all(alloc, &plan)?;
    Ok(fold.ledger.displaced())
}

/// How many writes of an order are displaced when they come.
pub fn displaced_in_order(
    alloc: Global,
    shape: &Shape,
    order: &[Arc<Placed>],
) -> Result<u32, Memory>
    requires { IsOrder shape.now (map (λ a. arc_value a) order.now) }
    ensures { IfOk result
        (λ n. n ≡ displaced_in shape.now (map (λ a. arc_value a) order.now)) }
{
    let mut count = Count::open(alloc, shape)?;
    'entries: for placed in order {
        count.take(placed);
    }
    Ok(count.displaced)
}
