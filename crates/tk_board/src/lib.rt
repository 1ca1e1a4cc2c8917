//! A board: one publisher shows values, and readers look without waiting.
#![tactic(auto)]

mod door;
mod ledger;
mod memory;
mod publisher;
mod reader;
mod rule;
mod share;
mod shown;
mod tally;
mod told;

pub use memory::Memory;
pub use publisher::{Publisher, open};
pub use reader::Reader;
pub use share::{Listed, Share};
pub use told::Told;
