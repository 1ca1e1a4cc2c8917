ghost use Rattle.std.specs.Prelude.{◌≡◌, ◌++◌, ◌∷◌, [], map, OnOk};
ghost use Rattle.tk_script.specs.Grammar.{role_line};
ghost use Rattle.tk_script.specs.Printing.{text_of};

use crate::Role;
use crate::line_text::{push_field, push_fields};
use std::alloc::Global;
use tk_shape::Memory;

/// Appends a line for each role.
pub(crate) fn push_roles(alloc: Global, roles: &[Role], out: &mut Vec<u8>) -> Result<(), Memory>
    ensures ok { OnOk result (out.new.items ≡ out.old.items ++ text_of (map role_line roles.now)) }
{
    for role in roles {
        push_role(alloc, role, out)?;
    }
    Ok(())
}

/// Appends the line of a role: the writer, then the followers.
fn push_role(alloc: Global, role: &Role, out: &mut Vec<u8>) -> Result<(), Memory>
    ensures ok { OnOk result (out.new.items ≡ out.old.items ++ text_of (role_line role.now ∷ [])) }
{
    out.extend_from_slice(b"log")?;
    push_field(alloc, role.writer as u64, out)?;
    push_fields(alloc, role.followers.as_slice(), out)?;
    out.push(b'\n')?;
    Ok(())
}
