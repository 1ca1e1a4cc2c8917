//! Tests of shapes, turns and histories: `tk_shape` and `tk_schedule`, by their public calls.
#![tactic(auto)]

#[cfg(test)]
mod law_tests;
#[cfg(test)]
mod shape_tests;
#[cfg(test)]
mod told_tests;
#[cfg(test)]
mod turn_tests;
