use tk_shape::Bytes;

/// What one server is asked of a relayed read, or replies to it: bytes for each of its two buckets, masked for all
/// servers but the first.
#[derive(Debug, Drop)]
pub struct Part {
    pub client: u32,
    pub turn: u32,
    pub epoch: u32,
    pub first: Bytes,
    pub second: Bytes,
}
