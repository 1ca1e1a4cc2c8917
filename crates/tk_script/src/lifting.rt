ghost use Rattle.std.specs.Prelude.{◌≡◌, ◌≤◌, IfOk, Some, None};
ghost use Rattle.tk_shape.specs.Lengths.{tape_len};
ghost use Rattle.tk_shape.specs.Lifting.{lifted_shape};
ghost use Rattle.tk_script.specs.Lifting.{lifted_script};

use crate::{Keys, Script};
use tk_shape::Memory;

/// The same script in format 2. For drawn words `tk_words::lift_tape` gives the tape that it wants.
pub fn lift(script: &Script) -> Result<Script, Memory>
    requires fits { script.now.keys ≡ None → tape_len (lifted_shape script.now.shape) ≤ 2097152 }
    ensures { IfOk result (λ lifted. lifted_script script.now ≡ Some lifted) }
{
    Ok(Script {
        shape: script.shape.lifted(),
        keys: same_keys(&script.keys)?,
        roles: script.roles.clone()?,
        says: script.says.clone()?,
    })
}

/// The keys of a script, if it has some.
fn same_keys(keys: &Option<Keys>) -> Result<Option<Keys>, Memory>
    ensures { IfOk result (λ same. same ≡ keys.now) }
{
    match keys {
        Some(keys) => Ok(Some(keys.clone()?)),
        None => Ok(None),
    }
}
