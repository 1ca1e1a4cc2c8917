//! Tests of clients, by the public calls of `tk_client`.
#![tactic(auto)]

#[cfg(test)]
mod client_tests;
#[cfg(test)]
mod law_tests;
#[cfg(test)]
mod look_tests;
#[cfg(test)]
mod seed_tests;
