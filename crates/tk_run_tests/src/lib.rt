//! Tests of runs whose servers begin anew from what they are given.
#![tactic(auto)]

#[cfg(test)]
mod keeper_tests;
