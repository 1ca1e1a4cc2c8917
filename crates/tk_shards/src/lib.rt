//! A server's blocks in ranges, each with its own bytes and its own worker.
#![tactic(auto)]

mod copying;
mod division;
mod laws;
mod opening;
mod parts;
mod place;
mod shard;
mod shard_set;

pub use division::{Division, DivisionError};
pub use laws::ranges_make_the_sum;
pub use shard_set::ShardSet;
pub use tk_shape::Memory;
