ghost use Rattle.tk_script.specs.Answer.{Agrees};
ghost use Rattle.tk_script.specs.Reading.{named, read_head, read_script, script_lines};
ghost use Rattle.tk_script.specs.Stands.{stands};

use crate::format_line::format_of;
use crate::key_lines::keys_of;
use crate::kind_line::kind_of;
use crate::kinds::Kinds;
use crate::place::Place;
use crate::role_lines::roles_of;
use crate::say_lines::says_of;
use crate::shape_line::shape_of;
use crate::{Script, ScriptError};
use std::alloc::Global;
use tk_shape::Shape;

/// The script section that begins here, of one of these kinds, and the place after it.
pub(crate) fn script_of(
    alloc: Global,
    kinds: Kinds,
    start: Place<'_>,
) -> Result<(Script, Place<'_>), ScriptError>
    ensures { Agrees (λ x. (script_lines x.0, stands x.1)) result
        (read_script kinds (stands start.entry)) }
{
    let (shape, keyed, rest) = head_of(alloc, kinds, start)?;
    let (roles, rest) = roles_of(alloc, &shape, rest)?;
    let (keys, rest) = keys_of(alloc, &shape, keyed, rest)?;
    let (says, rest) = says_of(alloc, &shape, rest)?;
    let script = Script {
        shape,
        keys,
        roles,
        says,
    };
    Ok((script, rest))
}

/// The shape that the three lines at the front of a script say, whether it is keyed, and the place after
/// them.
fn head_of(
    alloc: Global,
    kinds: Kinds,
    start: Place<'_>,
) -> Result<(Shape, bool, Place<'_>), ScriptError>
    ensures { Agrees (λ x. (named x.0, x.1, stands x.2)) result
        (read_head kinds (stands start.entry)) }
{
    let (format, rest) = format_of(start)?;
    let (shape, rest) = shape_of(alloc, format, rest)?;
    let (keyed, rest) = kind_of(&shape, kinds, rest)?;
    Ok((shape, keyed, rest))
}
