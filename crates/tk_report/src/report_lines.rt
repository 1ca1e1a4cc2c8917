ghost use Rattle.std.specs.Prelude.{◌≡◌, ◌<◌, ◌+◌, ◌^◌, length, IfOk};
ghost use Rattle.tk_script.specs.Grammar.{lines_of};
ghost use Rattle.tk_report.specs.ReportLines.{stops, raw_from};

use crate::line_kind::{kind_of, no_line};
use std::alloc::Global;
use tk_schedule::{RawHistory, RawKind, RawLine};
use tk_script::next_line;
use tk_shape::Memory;

/// Whether a line stands after the history of a report.
fn is_behind(line: &[u8]) -> bool
    ensures { result ≡ stops line.now }
{
    line.starts_with(b"log") || line.starts_with(b"unsent")
}

/// The lines of a history in a text that stands after a report's first line.
pub(crate) fn raw_lines(alloc: Global, text: &[u8]) -> Result<RawHistory, Memory>
    requires { length text.now + 3 < 2 ^ 64 }
    ensures { IfOk result (λ raw. raw ≡ raw_from 2 (lines_of text.now)) }
{
    let mut lines = Vec::new(alloc);
    let mut number = 2u64;
    let mut rest = text;
    'lines: while let Some((line, behind)) = next_line(rest) {
        if is_behind(line) {
            lines.push(RawLine {
                line: number,
                kind: RawKind::End,
            })?;
            return Ok(RawHistory::from_vec(lines));
        }
        let kind = kind_of(alloc, line)?;
        lines.push(RawLine { line: number, kind })?;
        number += 1;
        rest = behind;
    }
    lines.push(RawLine {
        line: number,
        kind: no_line(alloc),
    })?;
    lines.push(RawLine {
        line: number,
        kind: RawKind::End,
    })?;
    Ok(RawHistory::from_vec(lines))
}
