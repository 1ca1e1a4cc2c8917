//! Tests of a cluster, by the public calls of `tk_cluster`.
#![tactic(auto)]

#[cfg(test)]
mod hold_tests;
#[cfg(test)]
mod kind_tests;
#[cfg(test)]
mod set_tests;
#[cfg(test)]
mod testing;
#[cfg(test)]
mod thread_tests;
