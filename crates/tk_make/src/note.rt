ghost use Rattle.std.specs.Prelude.{◌≡◌, IfOk};
ghost use Rattle.tk_make.specs.Making.{made_note};

use std::alloc::Global;
use tk_script::push_numbers;
use tk_shape::{Bytes, Memory};

/// The text that is said on a log, in a phase and a tick: it tells the three.
pub(crate) fn make_note(alloc: Global, phase: u32, tick: u32, log: u32) -> Result<Bytes, Memory>
    ensures { IfOk result (λ text. text ≡ made_note phase tick log) }
{
    let place = [u64::from(log), u64::from(phase), u64::from(tick)];
    let mut text = Vec::new(alloc);
    push_numbers(alloc, b"note", &place, &mut text)?;
    Ok(Bytes::from_vec(text))
}
