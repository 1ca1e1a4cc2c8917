//! The filter of what is worth reading: the positions of the latest writes, each of which
//! carries a few.
#![tactic(auto)]

mod filter;
mod laws;
mod marks;
mod queue;
mod tally;
mod window;

pub use filter::Filter;
pub use laws::{pushes_are_shown, windows_go_on};
pub use tk_shape::Memory;
pub use window::Window;
