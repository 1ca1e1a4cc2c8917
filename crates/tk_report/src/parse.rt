ghost use Rattle.std.specs.Prelude.{◌≡◌, List, None, IfOk};
ghost use Rattle.tk_schedule.specs.declared.history.TurnOrder.{TurnOrder};
ghost use Rattle.tk_schedule.specs.Told.{Gives, Names};
ghost use Rattle.tk_script.specs.Grammar.{lines_of};
ghost use Rattle.tk_report.specs.ReportLines.{bad_report_line};
ghost use Rattle.tk_report.specs.Shown.{ShowsHistory};

use crate::report_lines::raw_lines;
use std::alloc::Global;
use tk_schedule::{History, HistoryError};
use tk_script::next_line;
use tk_shape::Shape;

/// The history that a report shows. An error names the first line that isn't the one due: of a
/// report that ends where a line is due, the one after the last.
pub fn parse_history(alloc: Global, shape: &Shape, bytes: &[u8]) -> Result<History, HistoryError>
    ensures shown { IfOk result (λ h. ShowsHistory shape.now bytes.now h) }
    ensures only { (h : List TurnOrder) → ShowsHistory shape.now bytes.now h →
        Gives result (λ g. g ≡ h) }
    ensures bad { Names (λ h. None) result (bad_report_line shape.now (lines_of bytes.now)) }
{
    let Some((first, rest)) = next_line(bytes) else {
        return Err(HistoryError::Line(1));
    };
    if first != b"report".as_slice() {
        return Err(HistoryError::Line(1));
    }
    let raw = raw_lines(alloc, rest)?;
    History::from_raw(alloc, shape, &raw)
}
