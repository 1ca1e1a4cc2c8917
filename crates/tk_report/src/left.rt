ghost use Rattle.std.specs.Prelude.{◌≡◌, ◌<◌, List, length};
ghost use Rattle.tk_client.specs.Client.{ClientState};
ghost use Rattle.tk_report.specs.Clients.{joined};
ghost use Rattle.tk_report.specs.Leaving.{got_by, unsent_by};

use crate::clients::Clients;
use crate::fold::Fold;
use tk_client::Got;

/// What is left of the clients of a run.
pub(crate) trait Left {
    /// The clients, by number.
    ghost clients: { Self → List ClientState };

    /// What a log gave to a client.
    fn got(&self, client: u32, log: u32) -> &[Got]
        requires { client < length (clients self.now) }
        ensures { result.now ≡ got_by (clients self.now) client log };

    /// How many texts a client has left over.
    fn unsent(&self, client: u32) -> u32
        requires { client < length (clients self.now) }
        ensures { result ≡ unsent_by (clients self.now) client };
}

impl Left for Clients {
    ghost clients = { λ c. c };

    fn got(&self, client: u32, log: u32) -> &[Got] {
        self.as_slice()[client as usize].log(log)
    }

    fn unsent(&self, client: u32) -> u32 {
        self.as_slice()[client as usize].unsent()
    }
}

impl Left for Fold {
    ghost clients = { λ f. joined f.group.clients.items f.followers.items };

    fn got(&self, client: u32, log: u32) -> &[Got] {
        self.followers[client as usize].log(log)
    }

    fn unsent(&self, client: u32) -> u32 {
        self.group.clients[client as usize].unsent()
    }
}
