ghost use Rattle.std.specs.Prelude.{◌≡◌, [], Some, IfOk};
ghost use Rattle.std.specs.Option.{option_copied};
ghost use Rattle.tk_script.specs.Answer.{Agrees};
ghost use Rattle.tk_script.specs.Reading.{alone, named, next_lines, read_clients, read_role};
ghost use Rattle.tk_script.specs.Reading.{first_from};
ghost use Rattle.tk_script.specs.SoundScript.{is_ascending};
ghost use Rattle.tk_script.specs.Stands.{stands};

use crate::fields::numbers_behind;
use crate::place::Place;
use crate::rows::{LineKind, counted};
use crate::{Cause, Role, Roles, ScriptError};
use std::alloc::Global;
use tk_shape::{Memory, Shape, Words};

/// The roles of a shape's logs, a line for each, and the place after them.
pub(crate) fn roles_of<'a>(
    alloc: Global,
    shape: &Shape,
    start: Place<'a>,
) -> Result<(Roles, Place<'a>), ScriptError>
    ensures { Agrees (λ x. (x.0, stands x.1)) result
        (next_lines shape.now.logs (alone (read_role (named shape.now))) [] (stands start.entry)) }
{
    let (roles, rest) = counted(alloc, &RoleLines { shape }, shape.logs, start)?;
    Ok((Roles::from_vec(roles), rest))
}

/// The lines of the roles in a shape.
#[derive(Clone, Copy)]
struct RoleLines<'a> {
    shape: &'a Shape,
}

impl<'a> LineKind for RoleLines<'a> {
    ghost use Rattle.tk_script.specs.Reading.{alone, named, read_role};

    type Item = Role;

    ghost reads = { λ k. alone (read_role (named k.shape.now)) };

    fn read(
        &self,
        alloc: Global,
        before: &[Role],
        line: &[u8],
    ) -> Result<Result<Role, Cause>, Memory> {
        role_of(alloc, self.shape, line)
    }
}

/// The role that a line spells: the writer, and followers in ascending order.
fn role_of(alloc: Global, shape: &Shape, line: &[u8]) -> Result<Result<Role, Cause>, Memory>
    ensures { IfOk result (λ r. r ≡ read_role (named shape.now) line.now) }
{
    let Some(numbers) = numbers_behind(alloc, b"log", line)? else {
        return Ok(Err(Cause::Form));
    };
    role_from(alloc, shape, numbers.as_slice())
}

/// The role of a writer and followers.
fn role_from(alloc: Global, shape: &Shape, numbers: &[u32]) -> Result<Result<Role, Cause>, Memory>
    ensures { IfOk result (λ r. r ≡ read_clients (named shape.now) (Some numbers.now)) }
{
    let [writer, followers @ ..] = numbers else {
        return Ok(Err(Cause::Form));
    };
    if let Some(value) = first_from(shape.clients, numbers) {
        return Ok(Err(Cause::Number { value: *value }));
    }
    if !ascends(followers) {
        return Ok(Err(Cause::Order));
    }
    Ok(Ok(Role {
        writer: *writer,
        followers: Words::from_slice(alloc, followers)?,
    }))
}

/// The first number that isn't below a limit.
fn first_from(limit: u32, numbers: &[u32]) -> Option<&u32>
    ensures { option_copied result ≡ first_from limit numbers.now }
{
    numbers.iter().find(|number| **number >= limit)
}

/// Whether each number is below the next.
fn ascends(numbers: &[u32]) -> bool
    ensures { result ≡ is_ascending numbers.now }
{
    let mut rest = numbers;
    'pairs: while rest.len() >= 2 {
        if rest[0] >= rest[1] {
            return false;
        }
        rest = &rest[1..];
    }
    true
}
