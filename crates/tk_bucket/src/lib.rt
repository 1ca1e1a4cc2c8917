//! The packed slots of a blocked table, in pages that snapshots share.
#![tactic(auto)]

mod buckets;
mod changes;
mod cut;
mod held;
mod laws;
mod opening;
mod packed;
mod sharing;
mod sizes;
mod slot;
mod slots;
mod step2;

pub use buckets::Buckets;
pub use laws::changes_lower_both;
pub use packed::Packed;
pub use slot::SlotRef;
pub use step2::Step2;
pub use tk_shape::Memory;
