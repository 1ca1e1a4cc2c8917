//! All lists of so many numbers below a bound, and how many of them pass a test. It has no code.
#![tactic(auto)]

mod laws;

pub use laws::{all_lists, as_many};
