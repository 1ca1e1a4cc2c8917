//! Answers to many vectors by several threads at once, each of which takes some of the vectors.
#![tactic(auto)]

mod all;
mod joined;

pub use all::answer_all;
pub use tk_shape::Memory;
