ghost use Rattle.std.specs.Prelude.{◌≡◌, ℕ, ◌<◌, ◌≤◌, List, length, take, Option, IfOk, OnErr};
ghost use Rattle.tk_io.specs.Content.{Rose, gained};

use crate::Failed;

/// Where bytes go to.
pub trait Sink {
    /// The bytes that went to it, where the sink tells them.
    ghost held: { Self → Option (List ℕ) };

    /// How many calls failed; it stands still at 2^64 - 1.
    ghost faults: { Self → ℕ };

    /// Appends the first of the bytes, and says how many: at least one, unless there is none.
    fn put(&mut self, bytes: &[u8]) -> Result<usize, Failed>
        ensures within { IfOk result (λ n. n ≤ length bytes.now) }
        ensures some { IfOk result (λ n. 0 < length bytes.now → 0 < n) }
        ensures bytes { IfOk result (λ n. held self.new ≡ gained (held self.old) (take n bytes.now)) }
        ensures err { OnErr result (held self.new ≡ held self.old) }
        ensures rose { OnErr result (Rose (faults self.old) (faults self.new)) }
        ensures counts { faults self.old ≤ faults self.new };
}
