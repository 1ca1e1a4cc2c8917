ghost use Rattle.std.specs.Prelude.{◌≡◌, ◌≢◌, ◌≤◌, Some, length, IfOk, IfSome, IfNone};
ghost use Rattle.tk_script.specs.Answer.{Agrees};
ghost use Rattle.tk_script.specs.Reading.{IsRead, named, next_line, read_numbers, read_shape};
ghost use Rattle.tk_script.specs.Stands.{stands};

use crate::fields::numbers_behind;
use crate::place::Place;
use crate::{Cause, ScriptError};
use std::alloc::Global;
use tk_shape::{Memory, Shape};

/// The shape of a format that the line here says, and the place after it.
pub(crate) fn shape_of(
    alloc: Global,
    format: u32,
    here: Place<'_>,
) -> Result<(Shape, Place<'_>), ScriptError>
    requires low { 1 ≤ format }
    requires high { format ≤ 2 }
    ensures { Agrees (λ x. (named x.0, stands x.1)) result
        (next_line (read_shape format) (stands here.entry)) }
{
    let (line, behind) = here.next()?;
    match shape_in(alloc, format, line)? {
        Ok(shape) => Ok((shape, behind)),
        Err(cause) => Err(here.refused(cause)),
    }
}

/// The shape of a format that a line spells.
fn shape_in(alloc: Global, format: u32, line: &[u8]) -> Result<Result<Shape, Cause>, Memory>
    requires low { 1 ≤ format }
    requires high { format ≤ 2 }
    ensures { IfOk result (λ r. IsRead named r (read_shape format line.now)) }
{
    let Some(numbers) = numbers_behind(alloc, b"shape", line)? else {
        return Ok(Err(Cause::Form));
    };
    Ok(shape_from(format, numbers.as_slice()))
}

/// The shape of a format and twelve numbers.
fn shape_from(format: u32, numbers: &[u32]) -> Result<Shape, Cause>
    requires low { 1 ≤ format }
    requires high { format ≤ 2 }
    ensures { IsRead named result (read_numbers format (Some numbers.now)) }
{
    let Some(twelve) = twelve_of(numbers) else {
        return Err(Cause::Form);
    };
    match Shape::of(format, twelve) {
        Ok(shape) => Ok(shape),
        Err(broken) => Err(Cause::Shape {
            field: broken.field,
            value: broken.value,
        }),
    }
}

/// Twelve numbers as an array.
fn twelve_of(numbers: &[u32]) -> Option<[u32; 12]>
    ensures found { IfSome result (λ twelve. twelve ≡ numbers.now) }
    ensures counted { IfSome result (λ twelve. length numbers.now ≡ 12) }
    ensures none { IfNone result (length numbers.now ≢ 12) }
{
    if numbers.len() != 12 {
        return None;
    }
    let mut twelve = [0; 12];
    twelve.copy_from_slice(numbers);
    Some(twelve)
}
