ghost use Rattle.std.specs.Prelude.{◌≡◌, ◌≢◌, ℕ, ◌≤◌, List, take, Option, None, OnOk, OnErr};
ghost use Rattle.tk_io.specs.Content.{Rose, gained};

use crate::Failed;

/// What each server sees, a list of bytes for each of them. Servers count from 1.
pub trait Taps {
    /// The bytes that went to a server's tap, where the taps tell them.
    ghost tap: { Self → ℕ → Option (List ℕ) };

    /// How many calls failed; it stands still at 2^64 - 1.
    ghost faults: { Self → ℕ };

    /// Appends the bytes to a server's list, or fails with a prefix of them appended.
    fn put(&mut self, server: u32, bytes: &[u8]) -> Result<(), Failed>
        requires low { 1 ≤ server }
        requires high { server ≤ 8 }
        ensures ok { OnOk result (tap self.new server ≡ gained (tap self.old server) bytes.now) }
        ensures err { OnErr result ((n : ℕ) × (tap self.new server ≡ gained (tap self.old server) (take n bytes.now))) }
        ensures others { (other : ℕ) → other ≢ server → tap self.new other ≡ tap self.old other }
        ensures rose { OnErr result (Rose (faults self.old) (faults self.new)) }
        ensures counts { faults self.old ≤ faults self.new };
}

/// Takes all, never fails, and tells nothing.
#[derive(Clone, Copy, Debug)]
pub struct NoTaps;

impl Taps for NoTaps {
    ghost tap = { λ _ _. None };

    ghost faults = { λ _. 0 };

    fn put(&mut self, _server: u32, _bytes: &[u8]) -> Result<(), Failed> {
        Ok(())
    }
}
