//! A server of a group whose clients are on other machines. It takes their writes and reads in packets, and puts the
//! entries in the order of the serial history: so nobody gives the order, and what a client is told doesn't depend on
//! how packets of different clients are mixed.
#![tactic(auto)]

mod check;
mod desk;
mod due;
mod fault;
mod frame_kind;
mod laws;
mod refusal;
mod release;
mod server;
mod serving;
mod setup;
mod take;
mod tell;
mod turns;

pub use fault::Fault;
pub use laws::told_grows;
pub use refusal::Refusal;
pub use serving::serve;
