use std::sync::Arc;
use tk_cluster::EpochSet;

/// What a client has from its part in a turn: where its write stands in the order, and the set that
/// it pinned.
#[derive(Drop)]
pub(crate) struct PinnedWrite {
    pub position: u64,
    pub set: Arc<EpochSet>,
}
