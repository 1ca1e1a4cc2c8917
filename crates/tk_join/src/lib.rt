//! A join of two closures that are lent, as `thread::join_mut` of the library, whose thread has a small stack.
#![tactic(auto)]

mod both;
mod lent;

pub use lent::join_mut;
