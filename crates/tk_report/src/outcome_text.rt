ghost use Rattle.std.specs.Prelude.{◌≡◌, ◌++◌, OnOk, OnErr};
ghost use Rattle.tk_report.specs.Outcomes.{outcome_text};

use crate::Outcome;
use crate::report_text::print_told;
use crate::told_by::Telling;
use std::alloc::Global;
use tk_shape::Memory;

/// Appends the report of what a run left: its history, what each log gave to each follower, and how
/// many texts each client has left over. If memory runs out, nothing is appended.
pub fn print_outcome(alloc: Global, outcome: &Outcome, out: &mut Vec<u8>) -> Result<(), Memory>
    ensures ok { OnOk result (out.new.items ≡ out.old.items ++ outcome_text outcome.now) }
    ensures err { OnErr result (out.new.items ≡ out.old.items) }
{
    let told = Telling {
        shape: &outcome.shape,
        roles: &outcome.roles,
        history: &outcome.history,
        left: &outcome.clients,
    };
    print_told(alloc, &told, out)
}
