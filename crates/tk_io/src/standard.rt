ghost use Rattle.std.specs.Prelude.{◌≡◌, None};

use crate::{Failed, Sink, Source};
use std::io::{Read, Stdin, Stdout, Write};

/// Standard input: it tells nothing of its bytes.
#[derive(Drop)]
pub struct StdSource {
    input: Stdin,
    faults: u64,
}

impl StdSource {
    pub fn new(input: Stdin) -> StdSource
        ensures { result.faults ≡ 0 }
    {
        StdSource { input, faults: 0 }
    }
}

impl Source for StdSource {
    ghost left = { λ _. None };

    ghost faults = { λ s. s.faults };

    fn take(&mut self, buf: &mut [u8]) -> Result<usize, Failed> {
        match self.input.read(buf) {
            Ok(n) => Ok(n),
            Err(_) => {
                self.faults = self.faults.saturating_add(1);
                Err(Failed)
            }
        }
    }
}

/// Standard output: it tells nothing of its bytes.
#[derive(Drop)]
pub struct StdSink {
    output: Stdout,
    faults: u64,
}

impl StdSink {
    pub fn new(output: Stdout) -> StdSink
        ensures { result.faults ≡ 0 }
    {
        StdSink { output, faults: 0 }
    }
}

impl Sink for StdSink {
    ghost held = { λ _. None };

    ghost faults = { λ s. s.faults };

    /// An output that takes nothing is a fault.
    fn put(&mut self, bytes: &[u8]) -> Result<usize, Failed> {
        match self.output.write(bytes) {
            Ok(n) if n > 0 || bytes.is_empty() => Ok(n),
            _ => {
                self.faults = self.faults.saturating_add(1);
                Err(Failed)
            }
        }
    }
}
