ghost use Rattle.std.specs.Prelude.{◌≡◌, ℕ, ◌<◌, ◌≤◌, List, [], length, take, Option, Some, IsSome, IfOk, OnErr};
ghost use Rattle.tk_io.specs.Content.{Rose, before_taking};

use crate::Failed;

/// Where bytes come from.
pub trait Source {
    /// The bytes that are left, where the source tells them.
    ghost left: { Self → Option (List ℕ) };

    /// How many calls failed; it stands still at 2^64 - 1.
    ghost faults: { Self → ℕ };

    /// Puts the first of the bytes that are left into the front of `buf`, and says how many. None come into a buffer
    /// that isn't empty only at the end.
    fn take(&mut self, buf: &mut [u8]) -> Result<usize, Failed>
        ensures within { IfOk result (λ n. n ≤ length buf.old) }
        ensures bytes { IfOk result (λ n. left self.old ≡ before_taking (take n buf.new) (left self.new)) }
        ensures end { IfOk result (λ n. n ≡ 0 → 0 < length buf.old → IsSome (left self.old) → left self.old ≡ Some []) }
        ensures err { OnErr result (left self.new ≡ left self.old) }
        ensures rose { OnErr result (Rose (faults self.old) (faults self.new)) }
        ensures counts { faults self.old ≤ faults self.new };
}
