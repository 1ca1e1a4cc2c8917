//! The pure machine over real replicas: what each event does, and the reply to it.
#![tactic(auto)]

mod event;
mod laws;
mod marks;
mod replicas;
mod reply;
mod world;

pub use event::Event;
pub use laws::{epochs_are_read, events_make_orders, events_may_come, servers_read_alike};
pub use reply::Reply;
pub use tk_shape::Memory;
pub use world::World;
