//! The table of the latest writes: which of them are retained, and where they lie.
#![tactic(auto)]

mod chain;
mod fill;
mod grid;
mod index;
mod indexed;
mod latest;
mod laws;
mod learn;
mod snapshot;
mod table;

pub use laws::{
    as_read, as_written, buckets_read_back, displaced_without_end, few_find_places, layout_holds,
    retained_ascends, retained_in_window, slots_read_back,
};
pub use snapshot::Snapshot;
pub use table::{Put, Table};
pub use tk_bucket::SlotRef;
pub use tk_shape::Memory;
