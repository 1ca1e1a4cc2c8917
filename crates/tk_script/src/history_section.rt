ghost use Rattle.tk_script.specs.Answer.{Agrees};
ghost use Rattle.tk_script.specs.Grammar.{lines_of};
ghost use Rattle.tk_script.specs.Reading.{read_history, read_turns};
ghost use Rattle.tk_script.specs.Stands.{stands};

use crate::lines::is_end;
use crate::place::Place;
use crate::turn_line::turn_of;
use crate::{Cause, ScriptError};
use std::alloc::Global;
use tk_schedule::{RawHistory, RawKind, RawLine};

/// The history section that begins here, and the place after it. Whether its lines are the ones
/// due is not asked here.
pub(crate) fn history_of(
    alloc: Global,
    start: Place<'_>,
) -> Result<(RawHistory, Place<'_>), ScriptError>
    ensures { Agrees (λ x. (x.0, stands x.1)) result (read_history (stands start.entry)) }
{
    let here = start.behind(b"history")?;
    turns_of(alloc, here)
}

/// The lines of a history up to the line `end`, with that, and the place after it.
fn turns_of(alloc: Global, start: Place<'_>) -> Result<(RawHistory, Place<'_>), ScriptError>
    ensures { Agrees (λ x. (x.0, stands x.1)) result
        (read_turns start.entry.line (lines_of start.entry.rest.now)) }
{
    let mut lines = Vec::new(alloc);
    let mut here = start;
    'turns: loop {
        let (line, behind) = here.next()?;
        let number = here.line;
        if is_end(line) {
            lines.push(RawLine {
                line: number,
                kind: RawKind::End,
            })?;
            return Ok((RawHistory::from_vec(lines), behind));
        }
        let Some(kind) = turn_of(alloc, line)? else {
            return Err(here.refused(Cause::Form));
        };
        lines.push(RawLine { line: number, kind })?;
        here = behind;
    }
}
