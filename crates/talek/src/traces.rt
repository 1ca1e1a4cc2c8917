//! What words leave behind where one call of an object fails.
use crate::testing::{taps_failing, words_of};
use std::sync::Wait;
use std::thread::Threads;
use tk_cli::{Status, talek};
use tk_io::{MemSink, MemSource, OpenGate};
use tk_shape::Memory;

/// What may fail: the source, which gives a byte a call; the sink, which takes ten; or the taps.
#[derive(Clone, Copy, Debug, PartialEq, Eq)]
pub(crate) enum Object {
    Source,
    Sink,
    Taps,
}

/// What words leave behind: how they end, how much of the input is left, what was written, and what
/// each of two taps got.
#[derive(Debug, PartialEq, Eq, Drop)]
pub(crate) struct Traces {
    pub status: Status,
    pub left: usize,
    pub written: Vec<u8>,
    pub first: Vec<u8>,
    pub second: Vec<u8>,
}

impl Traces {
    /// Whether the sink and each tap have a front of what a whole run leaves.
    pub(crate) fn is_front_of(&self, whole: &Traces) -> bool {
        let written = whole
            .written
            .as_slice()
            .starts_with(self.written.as_slice());
        let first = whole.first.as_slice().starts_with(self.first.as_slice());
        let second = whole.second.as_slice().starts_with(self.second.as_slice());
        written && first && second
    }
}

/// What words leave behind where one of an object's calls fails, counted from 1; at 0 none does.
pub(crate) fn traces_of<R: AllocGlobal + Threads + Wait + Sync>(
    rt: &R,
    words: &[&str],
    input: &[u8],
    object: Object,
    call: u32,
) -> Result<Traces, Memory> {
    let alloc = rt.alloc();
    let words = words_of(alloc, words)?;
    let failing = |other| if object == other { call } else { 0 };
    let mut source = MemSource::new(
        input.to_vec(alloc)?,
        1,
        vec![in alloc; failing(Object::Source)]?,
    );
    let mut sink = MemSink::new(alloc, 10, vec![in alloc; failing(Object::Sink)]?);
    let mut taps = taps_failing(alloc, failing(Object::Taps))?;
    let ended = talek(
        rt,
        words.as_slice(),
        &mut source,
        &mut sink,
        &mut taps,
        &OpenGate,
    );
    Ok(Traces {
        status: ended.status,
        left: source.left().len(),
        written: sink.bytes().to_vec(alloc)?,
        first: taps.bytes(1).to_vec(alloc)?,
        second: taps.bytes(2).to_vec(alloc)?,
    })
}
