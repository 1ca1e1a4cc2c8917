ghost use Rattle.std.specs.Prelude.{◌≡◌, ◌≢◌, ◌≤◌, ℕ, ◌+◌, ◌-◌, ◌<◌, ◌++◌, [], List, length, take, replicate, slice_set, slice_index_or, Contains, IsErr, IfOk, IfSome, IfNone, OnOk, OnErr};
ghost use Rattle.tk_io.specs.Content.{Rose, gained};
ghost use Rattle.tk_io.specs.InMemory.{next_call, next_fault, tap_of};

use crate::{Failed, Memory, Taps};
use std::alloc::{AllocError, Global};
use std::marker::Model;

/// The bytes that went to one tap, seen as their list.
#[derive(Drop)]
struct Tap {
    bytes: Vec<u8>,
}

impl Model for Tap {
    ghost use Rattle.std.specs.Prelude.{List, ℕ};

    ghost Value = { List ℕ };

    ghost view = { λ t. t.bytes.items };
}

impl Tap {
    fn as_slice(&self) -> &[u8]
        ensures { result.now ≡ self.now }
    {
        self.bytes.as_slice()
    }

    fn append(&mut self, bytes: &[u8]) -> Result<(), AllocError>
        ensures ok { OnOk result (self.new ≡ self.old ++ bytes.now) }
        ensures err { OnErr result (self.new ≡ self.old) }
    {
        self.bytes.extend_from_slice(bytes)
    }
}

/// Taps in memory. Clauses see the list of each server, the failing calls, and how many calls and faults there were.
#[derive(Drop)]
pub struct MemTaps {
    taps: Vec<Tap>,
    fails: Vec<u32>,
    calls: u32,
    faults: u64,
}

impl Model for MemTaps {
    ghost use Rattle.tk_io.specs.InMemory.{TapsState};

    ghost Value = { TapsState };

    ghost view = { λ t. record { taps = t.taps.items; fails = t.fails.items; calls = t.calls; faults = t.faults } };
}

impl MemTaps {
    /// Empty taps of servers 1 to `servers`; the calls whose numbers, from 1, are in `fails` fail.
    pub fn new(alloc: Global, servers: u32, fails: Vec<u32>) -> Result<MemTaps, Memory>
        requires low { 1 ≤ servers }
        requires high { servers ≤ 8 }
        ensures { IfOk result (λ t. t ≡ record { taps = replicate servers []; fails = fails.items; calls = 0; faults = 0 }) }
    {
        Ok(MemTaps {
            taps: empty_taps(alloc, servers)?,
            fails,
            calls: 0,
            faults: 0,
        })
    }

    /// What went to a server's tap; nothing for a server without one.
    pub fn bytes(&self, server: u32) -> &[u8]
        ensures found { IfSome (tap_of self.now server) (λ bytes. result.now ≡ bytes) }
        ensures none { IfNone (tap_of self.now server) (result.now ≡ []) }
    {
        if server == 0 {
            return &[];
        }
        match self.taps.get(server as usize - 1) {
            Some(tap) => tap.as_slice(),
            None => &[],
        }
    }

    pub fn faults(&self) -> u64
        ensures { result ≡ self.now.faults }
    {
        self.faults
    }

    /// Counts a fault.
    fn fault(&mut self) -> Result<(), Failed>
        ensures failed { IsErr result }
        ensures rose { Rose self.old.faults self.new.faults }
        ensures counts { self.old.faults ≤ self.new.faults }
        ensures counted { self.new ≡ record self.old { faults = next_fault self.old.faults } }
    {
        self.faults = self.faults.saturating_add(1);
        Err(Failed)
    }
}

impl Taps for MemTaps {
    ghost tap = { tap_of };

    ghost faults = { λ t. t.faults };

    /// A server without a tap is a fault, and so is a growth that finds no memory. A fault appends nothing.
    fn put(&mut self, server: u32, bytes: &[u8]) -> Result<(), Failed>
        requires low { 1 ≤ server }
        requires high { server ≤ 8 }
        ensures ok { OnOk result (tap_of self.new server ≡ gained (tap_of self.old server) bytes.now) }
        ensures err { OnErr result ((n : ℕ) × (tap_of self.new server ≡ gained (tap_of self.old server) (take n bytes.now))) }
        ensures others { (other : ℕ) → other ≢ server → tap_of self.new other ≡ tap_of self.old other }
        ensures rose { OnErr result (Rose self.old.faults self.new.faults) }
        ensures counts { self.old.faults ≤ self.new.faults }

        ensures nothing { OnErr result (self.new.taps ≡ self.old.taps) }
        ensures as_many { length self.new.taps ≡ length self.old.taps }
        ensures fails { Contains self.old.fails (next_call self.old.calls) → IsErr result }
        ensures no_tap { length self.old.taps < server → IsErr result }
        ensures called { self.new.calls ≡ next_call self.old.calls }
        ensures faulted { OnErr result (self.new.faults ≡ next_fault self.old.faults) }
        ensures same { self.new.fails ≡ self.old.fails }
    {
        self.calls = self.calls.saturating_add(1);
        if self.fails.contains(&self.calls) || self.taps.len() < server as usize {
            return self.fault();
        }
        if append_at(&mut self.taps, server as usize - 1, bytes).is_err() {
            return self.fault();
        }
        Ok(())
    }
}

/// Empty taps, so many.
fn empty_taps(alloc: Global, count: u32) -> Result<Vec<Tap>, Memory>
    ensures { IfOk result (λ v. v.items ≡ replicate count []) }
{
    let mut taps = Vec::new(alloc);
    for _ in 0..count {
        taps.push(Tap {
            bytes: Vec::new(alloc),
        })?;
    }
    Ok(taps)
}

/// Appends bytes to one of the taps.
fn append_at(taps: &mut Vec<Tap>, at: usize, bytes: &[u8]) -> Result<(), AllocError>
    requires { at < length taps.old.items }
    ensures ok { OnOk result (taps.new.items ≡ slice_set taps.old.items at (slice_index_or taps.old.items at [] ++ bytes.now)) }
    ensures err { OnErr result (taps.new.items ≡ taps.old.items) }
{
    let tap = &mut taps[at];
    tap.append(bytes)
}
