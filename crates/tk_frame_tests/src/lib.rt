//! Tests of frames, by the public calls of `tk_frames`.
#![tactic(auto)]

#[cfg(test)]
mod frame_tests;
#[cfg(test)]
mod law_tests;
#[cfg(test)]
mod lent_tests;
#[cfg(test)]
mod seed_tests;
#[cfg(test)]
mod shapes;
