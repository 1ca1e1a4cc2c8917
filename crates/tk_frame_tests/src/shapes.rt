//! Shapes that several tests share.
ghost use Rattle.std.specs.Prelude.{◌≡◌, ◌≤◌, IfOk};
ghost use Rattle.tk_shape.specs.Lengths.{turn_count};

use tk_shape::{Memory, Shape};

/// Two servers, eight buckets of four slots, and two clients in two phases of a tick, with one log,
/// whose blocks have room for six bytes.
pub(crate) const SMALL: [u32; 12] = [2, 8, 4, 4, 24, 64, 1, 0, 2, 2, 1, 1];

/// The small shape of a format.
pub(crate) fn small(format: u32) -> Result<Shape, Memory>
    requires low { 1 ≤ format }
    requires high { format ≤ 2 }
    ensures format { IfOk result (λ s. s.format ≡ format) }
    ensures servers { IfOk result (λ s. s.servers ≡ 2) }
    ensures buckets { IfOk result (λ s. s.buckets ≡ 8) }
    ensures block { IfOk result (λ s. s.block ≡ 24) }
    ensures hits { IfOk result (λ s. s.hits ≡ 1) }
    ensures clients { IfOk result (λ s. s.clients ≡ 2) }
    ensures logs { IfOk result (λ s. s.logs ≡ 1) }
    ensures turns { IfOk result (λ s. turn_count s ≡ 2) }
{
    match Shape::of(format, SMALL) {
        Ok(shape) => Ok(shape),
        Err(_) => Err(Memory),
    }
}
