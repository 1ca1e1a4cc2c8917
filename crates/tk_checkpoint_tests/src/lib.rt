//! Tests of checkpoints, by public calls. They stand here, since a crate with tests of its own is
//! proved once more with them.
#![tactic(auto)]

#[cfg(test)]
mod byte_tests;
#[cfg(test)]
mod going_on_tests;
#[cfg(test)]
mod one_text;
#[cfg(test)]
mod refusal_tests;
#[cfg(test)]
mod testing;
#[cfg(test)]
mod writing_tests;
