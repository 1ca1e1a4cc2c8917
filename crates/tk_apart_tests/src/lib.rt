//! Tests of the packets and the programs of a group on several machines, by public calls alone. They stand here, since
//! a crate with tests of its own is proved once more with them.
#![tactic(auto)]

#[cfg(test)]
mod member_tests;
#[cfg(test)]
mod packet_tests;
#[cfg(test)]
mod packing;
#[cfg(test)]
mod serve_tests;
