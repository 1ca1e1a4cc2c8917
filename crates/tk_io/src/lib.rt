//! Bytes in and out: a source, a sink, a tap for each server, and a gate that a test may hold. Each of the first three
//! counts its faults, and may tell what it holds; over the standard streams nothing is told.
#![tactic(auto)]

mod failed;
mod gate;
mod memory;
mod memory_sink;
mod memory_source;
mod memory_taps;
mod reading;
mod sink;
mod source;
mod standard;
mod taps;
mod writing;

pub use failed::Failed;
pub use gate::{Gate, OpenGate};
pub use memory::Memory;
pub use memory_sink::MemSink;
pub use memory_source::MemSource;
pub use memory_taps::MemTaps;
pub use reading::{ReadError, read_all};
pub use sink::Sink;
pub use source::Source;
pub use standard::{StdSink, StdSource};
pub use taps::{NoTaps, Taps};
pub use writing::put_all;
