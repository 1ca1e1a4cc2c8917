//! Tests of bytes in and out, by the public calls of `tk_io`. They stand here, since a crate with tests of its own is
//! proved once more with them.
#![tactic(auto)]

#[cfg(test)]
mod io_tests;
