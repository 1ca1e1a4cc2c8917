//! One order, its replicas and a board, as clients and a publisher call them.
#![tactic(auto)]

mod answer;
mod calls;
mod close;
mod cluster;
mod error;
mod hold;
mod many;
mod meet;
mod open;
mod pass;
mod publisher;
mod servers;
mod set;

pub use close::Closed;
pub use cluster::Cluster;
pub use error::{AnswerError, WriteError};
pub use pass::Pass;
pub use publisher::Publisher;
pub use set::EpochSet;
pub use tk_replica::Held;
pub use tk_shape::Memory;

/// What the publisher told: the sets that it had shown then.
pub type Told = tk_board::Told<std::sync::Arc<EpochSet>>;
