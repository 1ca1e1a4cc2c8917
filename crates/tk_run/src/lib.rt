//! The runs of a script: its clients and servers, turn after turn. A run gives each server's tap
//! what the server sees and answers, and ends with what its clients have got.
#![tactic(auto)]

mod actors;
mod answers;
mod ask_threads;
mod asked_frames;
mod closed_run;
mod course;
mod crew;
mod desks;
mod ended;
mod frames;
mod go_on;
mod keeper;
mod kept;
mod laws;
mod pinned_write;
mod ranged_batch;
mod replies;
mod resume_error;
mod run;
mod run_error;
mod serially;
mod server;
mod servers;
mod side_by_side;
mod stage;
mod stations;
mod sums;
mod taken;
mod talk;
mod tap_bytes;
mod taps;
mod threaded;
mod ticks;
mod turn_order;
mod turn_place;
mod turn_reads;
mod turns;

pub use closed_run::ClosedRun;
pub use ended::Ended;
pub use keeper::{Keeper, Shelf};
pub use laws::{checkpoints_accepted, servers_ranged};
pub use resume_error::ResumeError;
pub use run_error::RunError;
pub use serially::{resumed, resumed_by, resumed_on, serial};
pub use sums::{OwnSums, Sums};
pub use threaded::{threads, threads_by};
