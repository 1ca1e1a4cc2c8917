//! Tests of the texts that describe a group, by the public calls of `tk_script`.
#![tactic(auto)]

#[cfg(test)]
mod law_tests;
#[cfg(test)]
mod print_tests;
#[cfg(test)]
mod script_tests;
