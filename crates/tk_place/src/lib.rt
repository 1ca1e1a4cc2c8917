//! The search of a table whose entries each lie in one of two buckets: which moves make room for one more, or that no
//! placement of all of them exists.
#![tactic(auto)]

mod laws;
mod memory;
mod queue;
mod scratch;
mod search;
mod slots;
mod step;

pub use laws::{fit_by_placements, placed_in_any_order};
pub use memory::Memory;
pub use scratch::Scratch;
pub use search::{Found, find};
pub use slots::Slots;
pub use step::Step;
