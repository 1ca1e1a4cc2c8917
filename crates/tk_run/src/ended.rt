use tk_client::Client;

/// What a run leaves whose servers began anew: its clients, and how many writes were displaced when they
/// came, as the first server counted them.
#[derive(Drop)]
pub struct Ended {
    pub clients: Vec<Client>,
    pub displaced: u32,
}
