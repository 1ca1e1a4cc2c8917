//! A member of a group on several machines: a client that talks to its servers in packets, by way of its own host, on
//! whose ticks it acts. What it tells its host is what its logs gave.
#![tactic(auto)]

mod epochs;
mod fault;
mod marks;
mod member;
mod news;
mod packets;
mod replies;
mod setup;
mod taking_part;
mod word;

pub use fault::Fault;
pub use member::Member;
pub use taking_part::take_part;
pub use word::HostWord;
