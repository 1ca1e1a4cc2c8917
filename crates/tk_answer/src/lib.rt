//! A server's answers: for a vector the sum of the blocks that it chooses, however the blocks are stored.
#![tactic(auto)]

mod blocks;
mod each;
mod laws;
mod sum;
mod tiles;

pub use blocks::Blocks;
pub use each::{answer_each, answer_each_with, answer_rows, rows_of};
pub use laws::parts_are_runs;
pub use sum::answer;
pub use tk_shape::Memory;
