//! The format and the twelve numbers that fix a run, their ranges, and every length that they give; and the small list
//! types of the layers above.
#![tactic(auto)]

mod bytes;
mod differs;
mod field;
mod lengths;
mod lifting;
mod limits;
mod memory;
mod shape;
mod words;

pub use bytes::Bytes;
pub use differs::Differs;
pub use field::Field;
pub use memory::Memory;
pub use shape::{Shape, ShapeError};
pub use words::Words;
