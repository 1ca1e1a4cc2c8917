//! Packets between a program and the machines of a group, over a source and a sink; and the frames that tell clients on
//! other machines of an epoch, or that what they sent is refused.
#![tactic(auto)]

mod epoch_frame;
mod filling;
mod laws;
mod line;
mod marks;
mod next;
mod packet;
mod packet_error;
mod put;
mod put_error;
mod refused_frame;
mod streams;

pub use epoch_frame::{EpochFrame, decode_epoch, encode_epoch};
pub use laws::marks_are_read_again;
pub use line::Line;
pub use marks::marks_of;
pub use next::next_packet;
pub use packet::Packet;
pub use packet_error::PacketError;
pub use put::put_packets;
pub use put_error::PutError;
pub use refused_frame::{decode_refused, encode_refused};
pub use streams::Streams;
