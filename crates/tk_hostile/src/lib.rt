//! What clients read where all servers but one reply as they please: whatever they reply, no server
//! but the one that is hidden can tell two scripts of one shape apart by what it sees.
#![tactic(auto)]

mod changed_tape;
mod frames_seen;
mod laws;
mod logs_got;
mod replies;
mod sides;
mod sums;
mod turn_reads;
mod walk;
mod wrong_servers;

pub use changed_tape::wrong_mirror;
pub use frames_seen::wrong_view;
pub use laws::{
    acts_as_client, as_many_tapes, chosen_alike, honest_replies, one_to_one, one_to_one_attacked,
    same_seen, same_view,
};
pub use logs_got::wrong_logs;
pub use replies::Replies;
pub use tk_shape::Memory;
