//! Tests of what clients read where servers reply as they please, and of its mirror, by the public calls of
//! `tk_hostile`. They stand here, since a crate with tests of its own is proved once more with them.
#![tactic(auto)]

#[cfg(test)]
mod inputs;
#[cfg(test)]
mod mirror_tests;
#[cfg(test)]
mod reading_tests;
#[cfg(test)]
mod view_tests;
