use crate::Seeds;
use tk_shape::Bytes;

/// What a client asks one server in a turn: a vector for each of two buckets, over one epoch.
#[derive(Debug, Drop)]
pub struct ReadFrame {
    pub client: u32,
    pub turn: u32,
    pub epoch: u32,
    pub first: Bytes,
    pub second: Bytes,
    pub seeds: Seeds,
}
