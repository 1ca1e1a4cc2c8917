//! Frames: each value's one spelling in bytes, and decoders that name the first fault.
#![tactic(auto)]

mod check;
mod decode;
mod encode;
mod entry;
mod fault;
mod kind;
mod laws;
mod lent;
mod numbers;
mod read_frame;
mod reply_frame;
mod seeds;
mod spare;
mod value;
mod write_frame;

pub use check::{check_asked, check_reply};
pub use decode::{decode_placed, decode_read, decode_read_with, decode_reply, decode_write};
pub use encode::{
    encode_lent_read, encode_lent_reply, encode_placed, encode_read, encode_record, encode_reply,
    encode_write, head_of,
};
pub use entry::{Entry, Placed};
pub use fault::{FrameError, Name};
pub use laws::{before_a_mark, each_fault, lengths, one_spelling};
pub use lent::{LentRead, LentReply, Way};
pub use numbers::{u32_at, u64_at};
pub use read_frame::ReadFrame;
pub use reply_frame::ReplyFrame;
pub use seeds::Seeds;
pub use spare::{Spare, sized};
pub use tk_shape::Memory;
pub use value::sums_of;
pub use write_frame::WriteFrame;
