/// A client, and the turns of its next write and its next read.
#[derive(Clone, Copy, Debug)]
pub(crate) struct Due {
    pub client: u32,
    pub write: u32,
    pub read: u32,
}
