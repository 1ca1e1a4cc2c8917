ghost use Rattle.std.specs.Prelude.{◌≡◌, ◌++◌, OnOk, OnErr};
ghost use Rattle.tk_schedule.specs.Schedule.{IsLegal};
ghost use Rattle.tk_report.specs.Report as reported;

use crate::fold::fold_all;
use crate::plan::Plan;
use crate::report_text::print_told;
use crate::told_by::Telling;
use std::alloc::Global;
use tk_schedule::History;
use tk_script::Script;
use tk_shape::Memory;
use tk_words::Draws;

/// Appends the report of a run of a script whose history is this one: what each log gives to each
/// follower where each read goes over the epoch that the history gives it. If memory runs out,
/// nothing is appended.
pub fn report<D: Draws>(
    alloc: Global,
    script: &Script,
    draws: &D,
    history: &History,
    out: &mut Vec<u8>,
) -> Result<(), Memory>
    requires one_shape { D.shape draws.now ≡ script.now.shape }
    requires legal { IsLegal script.now.shape history.now }
    ensures ok { OnOk result (out.new.items
        ≡ out.old.items ++ reported.report script.now (D.book draws.now) history.now) }
    ensures err { OnErr result (out.new.items ≡ out.old.items) }
{
    let plan = Plan {
        script,
        draws,
        history,
    };
    let fold = fold_all(alloc, &plan)?;
    let told = Telling {
        shape: &script.shape,
        roles: &script.roles,
        history,
        left: &fold,
    };
    print_told(alloc, &told, out)
}
