use std::marker::Model;
use tk_client::Client;

/// The clients of a run, by number; seen as their list.
#[derive(Debug, Drop)]
pub struct Clients {
    items: Vec<Client>,
}

impl Model for Clients {
    ghost use Rattle.std.specs.Prelude.{List};
    ghost use Rattle.tk_client.specs.Client.{ClientState};

    ghost Value = { List ClientState };

    ghost view = { λ l. l.items.items };
}

impl Clients {
    ghost use Rattle.std.specs.Prelude.{◌≡◌};

    /// Clients by number: the first one is client 0.
    pub fn from_vec(items: Vec<Client>) -> Clients
        ensures { result ≡ items.items }
    {
        Clients { items }
    }

    /// The clients by number, lent.
    pub fn as_slice(&self) -> &[Client]
        ensures { result.now ≡ self.now }
    {
        self.items.as_slice()
    }

    /// The clients by number, handed over.
    pub fn into_vec(self) -> Vec<Client>
        ensures { result.items ≡ self }
    {
        self.items
    }
}
