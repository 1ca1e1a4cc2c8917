ghost use Rattle.std.specs.Prelude.{◌≡◌, ◌≤◌, ◌<◌, ◌↔◌, [], length, take, Contains, Some, IsSome, IsErr, IfOk, OnErr, min};
ghost use Rattle.tk_io.specs.Content.{Rose, before_taking};
ghost use Rattle.tk_io.specs.InMemory.{next_call, next_fault};

use crate::{Failed, Source};
use std::marker::Model;

/// A source in memory. Clauses see the bytes that are left, the cut, the failing calls, and how many calls and faults
/// there were.
#[derive(Drop)]
pub struct MemSource {
    bytes: Vec<u8>,
    at: usize,
    cut: usize,
    fails: Vec<u32>,
    calls: u32,
    faults: u64,
}

impl Model for MemSource {
    ghost use Rattle.std.specs.Prelude.{◌≤◌, length, drop};
    ghost use Rattle.tk_io.specs.InMemory.{SourceState};

    ghost Value = { SourceState };

    ghost view = { λ s. record { left = drop s.at s.bytes.items; cut = s.cut; fails = s.fails.items; calls = s.calls; faults = s.faults } };

    ghost invariant = { λ s. (s.at ≤ length s.bytes.items) × (1 ≤ s.cut) };
}

impl MemSource {
    /// Gives at most `cut` bytes a call; the calls whose numbers, from 1, are in `fails` fail.
    pub fn new(bytes: Vec<u8>, cut: usize, fails: Vec<u32>) -> MemSource
        requires { 1 ≤ cut }
        ensures { result ≡ record { left = bytes.items; cut = cut; fails = fails.items; calls = 0; faults = 0 } }
    {
        MemSource {
            bytes,
            at: 0,
            cut,
            fails,
            calls: 0,
            faults: 0,
        }
    }

    pub fn left(&self) -> &[u8]
        ensures { result.now ≡ self.now.left }
    {
        &self.bytes[self.at..]
    }

    pub fn faults(&self) -> u64
        ensures { result ≡ self.now.faults }
    {
        self.faults
    }
}

impl Source for MemSource {
    ghost left = { λ s. Some s.left };

    ghost faults = { λ s. s.faults };

    fn take(&mut self, buf: &mut [u8]) -> Result<usize, Failed>
        ensures within { IfOk result (λ n. n ≤ length buf.old) }
        ensures bytes { IfOk result (λ n. Some self.old.left ≡ before_taking (take n buf.new) (Some self.new.left)) }
        ensures end { IfOk result (λ n. n ≡ 0 → 0 < length buf.old → IsSome (Some self.old.left) → Some self.old.left ≡ Some []) }
        ensures err { OnErr result (Some self.new.left ≡ Some self.old.left) }
        ensures rose { OnErr result (Rose self.old.faults self.new.faults) }
        ensures counts { self.old.faults ≤ self.new.faults }

        ensures fails { IsErr result ↔ Contains self.old.fails (next_call self.old.calls) }
        ensures much { IfOk result (λ n. n ≡ min (min (length buf.old) self.old.cut) (length self.old.left)) }
        ensures called { self.new.calls ≡ next_call self.old.calls }
        ensures faulted { OnErr result (self.new.faults ≡ next_fault self.old.faults) }
        ensures same { (self.new.cut ≡ self.old.cut) × (self.new.fails ≡ self.old.fails) }
    {
        self.calls = self.calls.saturating_add(1);
        if self.fails.contains(&self.calls) {
            self.faults = self.faults.saturating_add(1);
            return Err(Failed);
        }
        let n = buf.len().min(self.cut).min(self.bytes.len() - self.at);
        buf[..n].copy_from_slice(&self.bytes[self.at..self.at + n]);
        self.at += n;
        Ok(n)
    }
}
