ghost use Rattle.std.specs.Prelude.{◌≡◌, ◌&&◌, codes, true, false};
ghost use Rattle.std.specs.Str.{bytes_eq};
ghost use Rattle.tk_script.specs.Answer.{Agrees};
ghost use Rattle.tk_script.specs.Reading.{may_be, named, next_line, read_kind};
ghost use Rattle.tk_script.specs.Stands.{stands};

use crate::kinds::Kinds;
use crate::place::Place;
use crate::{Cause, ScriptError};
use tk_shape::{Field, Shape};

/// The most bytes of a tape of drawn words.
const MOST_TAPE: u64 = 2097152;

/// Whether a script of a shape is keyed, where it may be of these kinds, by the line that stands
/// here, and the place after it. A drawn script's tape may not be too long.
pub(crate) fn kind_of<'a>(
    shape: &Shape,
    kinds: Kinds,
    here: Place<'a>,
) -> Result<(bool, Place<'a>), ScriptError>
    ensures { Agrees (λ x. (x.0, stands x.1)) result
        (next_line (read_kind kinds (named shape.now)) (stands here.entry)) }
{
    let (line, behind) = here.next()?;
    match kind_in(shape, kinds, line) {
        Ok(keyed) => Ok((keyed, behind)),
        Err(cause) => Err(here.refused(cause)),
    }
}

/// Whether a line says that a script of a shape is keyed, where it may be of these kinds.
fn kind_in(shape: &Shape, kinds: Kinds, line: &[u8]) -> Result<bool, Cause>
    ensures { result ≡ read_kind kinds (named shape.now) line.now }
{
    if is_keyed(kinds, line) {
        return Ok(true);
    }
    if !is_drawn(kinds, line) {
        return Err(Cause::Form);
    }
    let value = shape.tape_len();
    if value > MOST_TAPE {
        return Err(Cause::Shape {
            field: Field::Tape,
            value,
        });
    }
    Ok(false)
}

/// Whether a line is that of a keyed script, where one may stand.
fn is_keyed(kinds: Kinds, line: &[u8]) -> bool
    ensures { result ≡ (bytes_eq line.now (codes "keyed") && may_be kinds true) }
{
    line == b"keyed".as_slice() && kinds.allow(true)
}

/// Whether a line is that of a drawn script, where one may stand.
fn is_drawn(kinds: Kinds, line: &[u8]) -> bool
    ensures { result ≡ (bytes_eq line.now (codes "drawn") && may_be kinds false) }
{
    line == b"drawn".as_slice() && kinds.allow(false)
}
