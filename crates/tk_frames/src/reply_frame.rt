use tk_shape::Bytes;

/// A server's answer to a read: for each vector the sum of the buckets that it chooses.
#[derive(Debug, Drop)]
pub struct ReplyFrame {
    pub client: u32,
    pub turn: u32,
    pub epoch: u32,
    pub first: Bytes,
    pub second: Bytes,
}
