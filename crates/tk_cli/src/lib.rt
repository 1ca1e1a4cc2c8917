//! The top call: what the words ask for, done from a source to a sink, and the status that it ends with.
#![tactic(auto)]

mod ended;
mod ending;
mod exit;
mod handle_word;
mod hiding;
mod input;
mod laws;
mod lift_word;
mod make_word;
mod mirror_word;
mod relay_word;
mod request;
mod resume_word;
mod run_word;
mod serial_word;
mod status;
mod tally_word;
mod tell;
mod top;
mod view_word;
mod wrong_word;

pub use ended::Ended;
pub use exit::{Exit, exit_after, exit_with};
pub use laws::{completeness, honest_serial_runs};
pub use status::{Status, status_line};
pub use top::talek;
