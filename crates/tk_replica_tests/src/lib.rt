//! Tests of a server's state and of the pure machine: `tk_replica` and `tk_core`, by their public calls.
#![tactic(auto)]

#[cfg(test)]
mod core_tests;
#[cfg(test)]
mod law_tests;
#[cfg(test)]
mod replica_tests;
#[cfg(test)]
mod restored_tests;
