ghost use Rattle.std.specs.Prelude.{◌≡◌, IfOk};
ghost use Rattle.tk_shape.specs.Numbers.{numbers_of};
ghost use Rattle.tk_make.specs.Making.{made_numbers, IsMade};

use crate::keys::make_keys;
use crate::roles::make_roles;
use crate::says::make_says;
use std::alloc::Global;
use tk_script::Script;
use tk_shape::{Memory, Shape};

/// The script that is made from a number: a keyed group of twelve clients with four logs.
pub fn generate(alloc: Global, number: u64) -> Result<Script, Memory>
    ensures { IfOk result (IsMade number) }
{
    Ok(Script {
        shape: make_shape(),
        keys: Some(make_keys(alloc, number)?),
        roles: make_roles(alloc)?,
        says: make_says(alloc, number)?,
    })
}

/// The shape of each script that is made.
fn make_shape() -> Shape
    ensures format { result.format ≡ 1 }
    ensures numbers { numbers_of result ≡ made_numbers }
{
    Shape {
        format: 1,
        servers: 3,
        buckets: 256,
        depth: 4,
        retained: 512,
        block: 256,
        filter_bits: 4096,
        hits: 3,
        ahead: 4,
        clients: 12,
        phases: 8,
        ticks: 4,
        logs: 4,
    }
}
