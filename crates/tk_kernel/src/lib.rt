//! XOR over whole slices of bytes: one slice XORed into another, and of many blocks those that a bit
//! vector chooses, or each of many vectors.
#![tactic(auto)]

mod aligned;
mod choose;
mod columns;
mod each;
mod into;
mod laws;
mod nibbles;
mod pass;
mod stripes;
mod words;

pub use choose::xor_choose;
pub use each::xor_choose_each;
pub use into::xor_into;
pub use laws::pieces_and_bytes;
