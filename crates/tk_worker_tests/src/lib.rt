//! Tests of work that several threads share, by the public calls of `tk_join`, `tk_batch` and `tk_shards`. They stand
//! here, since a crate with tests of its own is proved once more with them.
#![tactic(auto)]

#[cfg(test)]
mod batch_tests;
#[cfg(test)]
mod blocks;
#[cfg(test)]
mod join_tests;
#[cfg(test)]
mod range_tests;
