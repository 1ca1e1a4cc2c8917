ghost use Rattle.std.specs.Prelude.{◌≡◌, ◌≤◌, ◌<◌, [], length, take, Contains, Some, IsErr, IfOk, OnErr, min};
ghost use Rattle.tk_io.specs.Content.{Rose, gained};
ghost use Rattle.tk_io.specs.InMemory.{next_call, next_fault};

use crate::{Failed, Sink};
use std::alloc::Global;
use std::marker::Model;

/// A sink in memory. Clauses see the bytes that went to it, the cut, the failing calls, and how many calls and faults
/// there were.
#[derive(Drop)]
pub struct MemSink {
    held: Vec<u8>,
    cut: usize,
    fails: Vec<u32>,
    calls: u32,
    faults: u64,
}

impl Model for MemSink {
    ghost use Rattle.std.specs.Prelude.{◌≤◌};
    ghost use Rattle.tk_io.specs.InMemory.{SinkState};

    ghost Value = { SinkState };

    ghost view = { λ s. record { held = s.held.items; cut = s.cut; fails = s.fails.items; calls = s.calls; faults = s.faults } };

    ghost invariant = { λ s. 1 ≤ s.cut };
}

impl MemSink {
    /// Takes at most `cut` bytes a call; the calls whose numbers, from 1, are in `fails` fail.
    pub fn new(alloc: Global, cut: usize, fails: Vec<u32>) -> MemSink
        requires { 1 ≤ cut }
        ensures { result ≡ record { held = []; cut = cut; fails = fails.items; calls = 0; faults = 0 } }
    {
        MemSink {
            held: Vec::new(alloc),
            cut,
            fails,
            calls: 0,
            faults: 0,
        }
    }

    pub fn bytes(&self) -> &[u8]
        ensures { result.now ≡ self.now.held }
    {
        self.held.as_slice()
    }

    pub fn faults(&self) -> u64
        ensures { result ≡ self.now.faults }
    {
        self.faults
    }
}

impl Sink for MemSink {
    ghost held = { λ s. Some s.held };

    ghost faults = { λ s. s.faults };

    /// A growth that finds no memory is a fault.
    fn put(&mut self, bytes: &[u8]) -> Result<usize, Failed>
        ensures within { IfOk result (λ n. n ≤ length bytes.now) }
        ensures some { IfOk result (λ n. 0 < length bytes.now → 0 < n) }
        ensures bytes { IfOk result (λ n. Some self.new.held ≡ gained (Some self.old.held) (take n bytes.now)) }
        ensures err { OnErr result (Some self.new.held ≡ Some self.old.held) }
        ensures rose { OnErr result (Rose self.old.faults self.new.faults) }
        ensures counts { self.old.faults ≤ self.new.faults }

        ensures fails { Contains self.old.fails (next_call self.old.calls) → IsErr result }
        ensures much { IfOk result (λ n. n ≡ min (length bytes.now) self.old.cut) }
        ensures called { self.new.calls ≡ next_call self.old.calls }
        ensures faulted { OnErr result (self.new.faults ≡ next_fault self.old.faults) }
        ensures same { (self.new.cut ≡ self.old.cut) × (self.new.fails ≡ self.old.fails) }
    {
        self.calls = self.calls.saturating_add(1);
        let n = bytes.len().min(self.cut);
        if self.fails.contains(&self.calls) || self.held.extend_from_slice(&bytes[..n]).is_err() {
            self.faults = self.faults.saturating_add(1);
            return Err(Failed);
        }
        Ok(n)
    }
}
