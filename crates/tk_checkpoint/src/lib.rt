//! Checkpoints: what a replica has just behind a mark, as bytes, and a state that goes on from them.
#![tactic(auto)]

mod append;
mod error;
mod finding;
mod head;
mod laws;
mod restoring;
mod save;
mod slots;
mod window;
mod writes;

pub use error::{CheckpointError, RestoreError};
pub use laws::{saved_is_sound, saved_reads_back, written_at_marks};
pub use restoring::restore;
pub use save::checkpoint;
pub use tk_shape::Memory;
