//! The word `make`: the script that is made from a number.
ghost use Rattle.std.specs.Prelude.{◌≡◌, IfOk, IfErr};
ghost use Rattle.tk_cli.specs.Texts.{IsScriptText};

use crate::status::Status;
use std::alloc::Global;
use tk_make::generate;
use tk_script::print;
use tk_shape::Memory;

/// The script of a number, as it is printed. Only memory may be wanting.
pub(crate) fn make_text(alloc: Global, number: u64) -> Result<Vec<u8>, Status>
    ensures text { IfOk result (λ text. IsScriptText number text.items) }
    ensures memory { IfErr result (λ s. s ≡ Status.Memory) }
{
    Ok(printed_script(alloc, number)?)
}

/// The script of a number, as it is printed.
fn printed_script(alloc: Global, number: u64) -> Result<Vec<u8>, Memory>
    ensures { IfOk result (λ text. IsScriptText number text.items) }
{
    let script = generate(alloc, number)?;
    let mut text = Vec::new(alloc);
    print(&script, &mut text)?;
    Ok(text)
}
