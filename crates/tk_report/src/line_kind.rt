ghost use Rattle.std.specs.Prelude.{◌≡◌, IfOk};
ghost use Rattle.tk_report.specs.ReportLines as lines;

use std::alloc::Global;
use tk_schedule::{Items, RawKind};
use tk_script::turn_of;
use tk_shape::Memory;

/// What stands for a line that says nothing of a history: it is never due.
pub(crate) fn no_line(alloc: Global) -> RawKind
    ensures { result ≡ lines.no_line }
{
    RawKind::Order {
        phase: 0,
        tick: 0,
        items: Items::from_vec(Vec::new(alloc)),
    }
}

/// What a line of a report says of its history.
pub(crate) fn kind_of(alloc: Global, line: &[u8]) -> Result<RawKind, Memory>
    ensures { IfOk result (λ k. k ≡ lines.kind_said line.now) }
{
    match turn_of(alloc, line)? {
        Some(kind) => Ok(kind),
        None => Ok(no_line(alloc)),
    }
}
