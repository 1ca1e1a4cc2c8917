//! The word `handle`: the handle of a log, from its id and a root.
ghost use Rattle.std.specs.Prelude.{◌≡◌, IfOk, IfErr};
ghost use Rattle.tk_handle.specs.Handle.{handle_bytes};
ghost use Rattle.tk_cli.specs.Handles.{handle_text, hex_line};

use crate::status::Status;
use std::alloc::Global;
use tk_handle::Handle;
use tk_shape::Memory;

/// The line of a handle. Only memory may be wanting.
pub(crate) fn handle_line(alloc: Global, id: u64, root: &[u8; 32]) -> Result<Vec<u8>, Status>
    ensures line { IfOk result (λ line. line.items ≡ handle_text id root.now) }
    ensures memory { IfErr result (λ s. s ≡ Status.Memory) }
{
    Ok(line_of(alloc, &Handle::from_root(id, root))?)
}

/// The line of a handle: 208 digits in lower case.
fn line_of(alloc: Global, handle: &Handle) -> Result<Vec<u8>, Memory>
    ensures { IfOk result (λ line. line.items ≡ hex_line (handle_bytes handle.now)) }
{
    let digits = hex::encode(alloc, handle.to_bytes().as_slice())?;
    let mut line = digits.into_bytes();
    line.push(b'\n')?;
    Ok(line)
}
