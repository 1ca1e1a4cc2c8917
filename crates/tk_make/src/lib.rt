//! A group made from a number, and the counts of what a run left.
#![tactic(auto)]

mod count;
mod counts;
mod generator;
mod given;
mod keys;
mod kind;
mod laws;
mod note;
mod roles;
mod says;
mod sum;
mod tally_text;

pub use generator::generate;
pub use laws::tallies;
pub use tally_text::tally;
pub use tk_shape::Memory;
