ghost use Rattle.std.specs.Prelude.{◌≡◌, ◌<◌, IfOk};
ghost use Rattle.tk_client.specs.Client.{new_client};
ghost use Rattle.tk_client.specs.Looking.{new_follower};
ghost use Rattle.tk_report.specs.Clients.{AreClients, client_knowing, known_first};
ghost use Rattle.tk_report.specs.Clients.{AreFollowers};
ghost use Rattle.tk_report.specs.Queues.{writes_of};
ghost use Rattle.tk_report.specs.Report.{follows_of};

use std::alloc::Global;
use tk_client::{Client, Follower};
use tk_script::Script;
use tk_shape::Memory;

/// Each client of a script, by number, before the first turn.
pub(crate) fn open_clients(alloc: Global, script: &Script) -> Result<Vec<Client>, Memory>
    ensures { let S = script.now in IfOk result (λ clients.
        AreClients S.shape.clients (client_knowing S (known_first S) 0) clients.items) }
{
    let mut clients = Vec::new(alloc);
    for number in 0..script.shape.clients {
        clients.push(open_client(alloc, script, number)?)?;
    }
    Ok(clients)
}

/// A client of a script, before the first turn.
fn open_client(alloc: Global, script: &Script, number: u32) -> Result<Client, Memory>
    requires { number < script.now.shape.clients }
    ensures { let S = script.now in IfOk result (λ c.
        c ≡ new_client S.shape number (writes_of S number) (follows_of S number)) }
{
    let writes = logs_written(alloc, script, number)?;
    let follows = logs_followed(alloc, script, number)?;
    Client::open(
        alloc,
        &script.shape,
        number,
        writes.as_slice(),
        follows.as_slice(),
    )
}

/// For each client of a script, by number, one who follows what the client does.
pub fn open_followers(alloc: Global, script: &Script) -> Result<Vec<Follower>, Memory>
    ensures { let S = script.now in IfOk result (λ followers. AreFollowers S.shape.clients
        (λ c. new_follower S.shape (follows_of S c)) followers.items) }
{
    let mut followers = Vec::new(alloc);
    for number in 0..script.shape.clients {
        followers.push(open_follower(alloc, script, number)?)?;
    }
    Ok(followers)
}

/// One who follows what a client does.
fn open_follower(alloc: Global, script: &Script, number: u32) -> Result<Follower, Memory>
    ensures { let S = script.now in IfOk result (λ l.
        l ≡ new_follower S.shape (follows_of S number)) }
{
    let follows = logs_followed(alloc, script, number)?;
    Follower::open(alloc, &script.shape, follows.as_slice())
}

/// The logs that a client writes, ascending.
fn logs_written(alloc: Global, script: &Script, client: u32) -> Result<Vec<u32>, Memory>
    ensures { IfOk result (λ logs. logs.items ≡ writes_of script.now client) }
{
    let mut logs = Vec::new(alloc);
    for log in 0..script.shape.logs {
        if script.role(log).writer == client {
            logs.push(log)?;
        }
    }
    Ok(logs)
}

/// The logs that a client follows, ascending.
fn logs_followed(alloc: Global, script: &Script, client: u32) -> Result<Vec<u32>, Memory>
    ensures { IfOk result (λ logs. logs.items ≡ follows_of script.now client) }
{
    let mut logs = Vec::new(alloc);
    for log in 0..script.shape.logs {
        if script.role(log).followers.as_slice().contains(&client) {
            logs.push(log)?;
        }
    }
    Ok(logs)
}
