//! Tests of reads by way of one server, by the public calls of `tk_relay`. They stand here, since a crate with tests of
//! its own is proved once more with them.
#![tactic(auto)]

#[cfg(test)]
mod frame_tests;
#[cfg(test)]
mod gather_tests;
#[cfg(test)]
mod pad_tests;
#[cfg(test)]
mod reads;
#[cfg(test)]
mod relayed_tests;
#[cfg(test)]
mod serving;
#[cfg(test)]
mod sets;
#[cfg(test)]
mod sight_tests;
