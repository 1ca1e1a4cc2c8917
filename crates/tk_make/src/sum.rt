ghost use Rattle.std.specs.Prelude.{◌≡◌, ◌+◌, IfOk};

use tk_shape::Memory;

/// A sum. What 64 bits can't count has no room in memory either.
pub(crate) fn plus(sum: u64, more: u64) -> Result<u64, Memory>
    ensures { IfOk result (λ n. n ≡ sum + more) }
{
    sum.checked_add(more).ok_or(Memory)
}
