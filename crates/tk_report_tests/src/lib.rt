//! Tests of what runs deliver and of trial groups, by the public calls of `tk_report` and `tk_make`. They stand here,
//! since a crate with tests of its own is proved once more with them.
#![tactic(auto)]

#[cfg(test)]
mod displaced_tests;
#[cfg(test)]
mod history_tests;
#[cfg(test)]
mod inputs;
#[cfg(test)]
mod make_tests;
#[cfg(test)]
mod report_tests;
#[cfg(test)]
mod sent_tests;
