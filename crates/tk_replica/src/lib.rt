//! One server's replica: what it has of the entries that it applied, and the epochs that it keeps.
#![tactic(auto)]

mod apply;
mod asker;
mod epoch;
mod error;
mod followed;
mod held;
mod latest;
mod laws;
mod replica;
mod reply;
mod serve;
mod shelf;
mod state;
mod store;

pub use asker::{Asker, replies};
pub use epoch::Epoch;
pub use error::{PinError, ServeError};
pub use held::Held;
pub use laws::kept_from_floor_to_last;
pub use replica::Replica;
pub use reply::push_vectors;
pub use state::ReplicaState;
pub use tk_shape::Memory;
