ghost use Rattle.std.specs.Prelude.{◌≡◌, ◌++◌, OnOk};
ghost use Rattle.tk_script.specs.CauseText.{cause_text};

use crate::Cause;
use crate::line_text::push_field;
use std::alloc::Global;
use tk_shape::Memory;

/// Appends why a line is refused. If memory runs out, a part may have been appended.
pub fn push_cause(alloc: Global, cause: &Cause, out: &mut Vec<u8>) -> Result<(), Memory>
    ensures ok { OnOk result (out.new.items ≡ out.old.items ++ cause_text cause.now) }
{
    match cause {
        Cause::Early => out.extend_from_slice(b"early")?,
        Cause::Form => out.extend_from_slice(b"form")?,
        Cause::Shape { field, value } => {
            out.extend_from_slice(b"shape ")?;
            out.extend_from_slice(field.name())?;
            push_field(alloc, *value, out)?;
        }
        Cause::Number { value } => {
            out.extend_from_slice(b"number")?;
            push_field(alloc, u64::from(*value), out)?;
        }
        Cause::Order => out.extend_from_slice(b"order")?,
        Cause::Room { room } => {
            out.extend_from_slice(b"room")?;
            push_field(alloc, u64::from(*room), out)?;
        }
        Cause::Text { at } => {
            out.extend_from_slice(b"text")?;
            push_field(alloc, *at, out)?;
        }
        Cause::After => out.extend_from_slice(b"after")?,
    }
    Ok(())
}
