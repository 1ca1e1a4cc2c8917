//! Bit vectors that ask several servers for one bucket: all of them together name it.
#![tactic(auto)]

mod laws;
mod shares;
mod vector;

pub use laws::{answers_join, last_is_computed, shares_join, sums_add};
pub use shares::{join, share};
pub use vector::bit;
