ghost use Rattle.std.specs.Prelude.{◌≡◌, ◌≤◌, IfOk};
ghost use Rattle.tk_script.specs.Answer.{Agrees};
ghost use Rattle.tk_script.specs.Reading.{next_line, read_format};
ghost use Rattle.tk_script.specs.Stands.{stands};

use crate::place::Place;
use crate::{Cause, ScriptError};

/// The format that the line here names, and the place after it.
pub(crate) fn format_of(here: Place<'_>) -> Result<(u32, Place<'_>), ScriptError>
    ensures read { Agrees (λ x. (x.0, stands x.1)) result
        (next_line read_format (stands here.entry)) }
    ensures low { IfOk result (λ x. 1 ≤ x.0) }
    ensures high { IfOk result (λ x. x.0 ≤ 2) }
{
    let (line, behind) = here.next()?;
    match format_in(line) {
        Ok(format) => Ok((format, behind)),
        Err(cause) => Err(here.refused(cause)),
    }
}

/// The format that a line names.
fn format_in(line: &[u8]) -> Result<u32, Cause>
    ensures read { result ≡ read_format line.now }
    ensures low { IfOk result (λ format. 1 ≤ format) }
    ensures high { IfOk result (λ format. format ≤ 2) }
{
    if line == b"talek 1".as_slice() {
        return Ok(1);
    }
    if line == b"talek 2".as_slice() {
        return Ok(2);
    }
    Err(Cause::Form)
}
