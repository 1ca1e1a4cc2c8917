//! The writes of the window in a checkpoint.
ghost use Rattle.std.specs.Prelude.{◌≡◌, ◌*◌, ◌≤◌, nat_lt, length};
ghost use Rattle.std.specs.List.{list_all};
ghost use Rattle.std.specs.Result.{result_err};
ghost use Rattle.tk_frames.specs.Fields.{numbers};
ghost use Rattle.tk_checkpoint.specs.Saved.{entry_len};
ghost use Rattle.tk_checkpoint.specs.Sound.{first_refusal, is_sound_write, window_checks_from};

use crate::RestoreError;
use crate::head::{Head, entry_len};
use tk_frames::{u32_at, u64_at};
use tk_shape::Shape;

/// Refuses the first write that isn't sound.
pub(crate) fn check_window(shape: &Shape, head: &Head, bytes: &[u8]) -> Result<(), RestoreError>
    requires { head.now.count * entry_len shape.now ≤ length bytes.now }
    ensures { result_err result
        ≡ first_refusal (window_checks_from shape.now head.now.applied 0 0 head.now.count bytes.now) }
{
    let len = entry_len(shape);
    let Head { applied, count, .. } = *head;
    let mut rest = bytes;
    let mut before = 0;
    for at in 0..count {
        if !is_sound_write(shape, applied, before, rest) {
            return Err(RestoreError::Window { at });
        }
        before = u64_at(rest, 0);
        rest = rest.split_at(len).1;
    }
    Ok(())
}

/// Whether a write comes behind another position, before what was applied, and has hits of the filter.
fn is_sound_write(shape: &Shape, applied: u64, before: u64, bytes: &[u8]) -> bool
    requires { entry_len shape.now ≤ length bytes.now }
    ensures { result ≡ is_sound_write shape.now applied before bytes.now }
{
    let position = u64_at(bytes, 0);
    let (_, hits) = bytes.split_at(8);
    before < position && position < applied && are_below(shape.filter_bits, shape.hits, hits)
}

/// Whether so many numbers are below a limit.
fn are_below(limit: u32, count: u32, bytes: &[u8]) -> bool
    requires { 4 * count ≤ length bytes.now }
    ensures { result ≡ list_all (λ h. nat_lt h limit) (numbers count bytes.now) }
{
    let mut rest = bytes;
    for _ in 0..count {
        if u32_at(rest, 0) >= limit {
            return false;
        }
        rest = rest.split_at(4).1;
    }
    true
}
