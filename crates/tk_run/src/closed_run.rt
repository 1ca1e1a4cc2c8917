use tk_client::Client;
use tk_cluster::Closed;
use tk_schedule::History;

/// A run of threads that is over: the history that came about, its clients as they are at the end, how
/// many writes were displaced when they came, and what its cluster had.
#[derive(Drop)]
pub struct ClosedRun {
    pub history: History,
    pub clients: Vec<Client>,
    pub displaced: u32,
    pub closed: Closed,
}
