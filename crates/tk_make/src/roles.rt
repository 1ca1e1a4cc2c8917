ghost use Rattle.std.specs.Prelude.{◌≡◌, ◌<◌, IfOk};
ghost use Rattle.tk_make.specs.Making.{made_role, made_roles};

use std::alloc::Global;
use tk_script::{Role, Roles};
use tk_shape::{Memory, Words};

/// Who writes and follows each log.
pub(crate) fn make_roles(alloc: Global) -> Result<Roles, Memory>
    ensures { IfOk result (λ roles. roles ≡ made_roles) }
{
    let mut roles = Vec::new(alloc);
    for log in 0..4 {
        roles.push(make_role(alloc, log)?)?;
    }
    Ok(Roles::from_vec(roles))
}

/// Who writes and follows a log: three clients that have to do with no other.
fn make_role(alloc: Global, log: u32) -> Result<Role, Memory>
    requires { log < 4 }
    ensures { IfOk result (λ role. role ≡ made_role log) }
{
    let writer = 3 * log;
    Ok(Role {
        writer,
        followers: Words::from_slice(alloc, &[writer + 1, writer + 2])?,
    })
}
