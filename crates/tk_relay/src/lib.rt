//! Reads by way of one server: a client sends it one bundle and gets one reply. The server passes masked parts on to
//! the others and joins what they reply; what it sees of a read fits any two buckets.
#![tactic(auto)]

mod append;
mod asked_reads;
mod bundles;
mod frames_seen;
mod gather_back;
mod gather_error;
mod halves;
mod keyed;
mod kind;
mod laws;
mod order;
mod pads;
mod part;
mod part_error;
mod part_frames;
mod parts_of_bundle;
mod relay_run;
mod relay_run_error;
mod relayed_read;
mod replies;
mod serve_all;
mod server_parts;
mod servers;
mod taken_replies;
mod turns;

pub use bundles::bundle;
pub use gather_back::gather;
pub use gather_error::GatherError;
pub use laws::{
    as_many_pads, moved_back, pads_are_bytes, replies_join, same_sight, tap_gains_sight,
};
pub use pads::{PadError, Pads};
pub use part::Part;
pub use part_error::PartError;
pub use part_frames::{decode_masked_reply, decode_part, encode_masked_reply, encode_part};
pub use parts_of_bundle::split;
pub use relay_run::relayed;
pub use relay_run_error::RelayRunError;
pub use replies::replies_for;
pub use server_parts::{serve_part, serve_parts};
pub use tk_shape::Memory;
