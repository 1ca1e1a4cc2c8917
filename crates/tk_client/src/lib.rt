//! A client of a run: the texts that it has yet to write, and what it knows as a reader. It talks
//! to servers by frames alone.
#![tactic(auto)]

mod client;
mod follow;
mod follower;
mod got;
mod join;
mod laws;
mod lookup;
mod open_read;
mod outbox;
mod pairs;
mod positions;
mod query;
mod reader;
mod record;
mod replies;
mod say_error;
mod search;
mod sight;
mod take_error;
mod target;
mod vain_search;
mod waiting;
mod wanted;
mod writes;
mod written;

pub use client::Client;
pub use follower::Follower;
pub use got::Got;
pub use laws::asked_in_range;
pub use say_error::SayError;
pub use take_error::TakeError;
pub use tk_shape::Memory;
