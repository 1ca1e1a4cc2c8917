ghost use Rattle.std.specs.Prelude.{◌≡◌, ◌<◌, ℕ, Some, length, slice_get, slice_index, count_by};
ghost use Rattle.std.specs.Prelude.{IfOk};
ghost use Rattle.tk_report.specs.Leaving.{got_by};
ghost use Rattle.tk_make.specs.Tallies.{is_of, given_in, given_by};

use crate::kind::{Kind, is_of};
use crate::sum::plus;
use tk_client::Got;
use tk_report::{Clients, Outcome};
use tk_script::Role;
use tk_shape::Memory;

/// How many of a kind all logs gave to all their followers.
pub(crate) fn given(outcome: &Outcome, kind: Kind) -> Result<u64, Memory>
    ensures { IfOk result (λ n. n ≡ given_in outcome.now kind) }
{
    let mut sum = 0;
    for log in 0..outcome.shape.logs {
        sum = plus(sum, given_by(outcome, kind, log)?)?;
    }
    Ok(sum)
}

/// How many of a kind a log gave to its followers.
fn given_by(outcome: &Outcome, kind: Kind, log: u32) -> Result<u64, Memory>
    requires { log < outcome.now.shape.logs }
    ensures { IfOk result (λ n. n ≡ given_by outcome.now.roles outcome.now.clients kind log) }
{
    let followers = role(outcome, log).followers.as_slice();
    let mut sum = 0;
    for client in followers {
        let got = got_by(&outcome.clients, *client, log);
        sum = plus(sum, count_of(kind, got))?;
    }
    Ok(sum)
}

/// What a log gave to a client.
fn got_by(clients: &Clients, client: u32, log: u32) -> &[Got]
    requires { client < length clients.now }
    ensures { result.now ≡ got_by clients.now client log }
{
    clients.as_slice()[client as usize].log(log)
}

/// How many of these are of a kind.
fn count_of(kind: Kind, all: &[Got]) -> u64
    ensures { result ≡ count_by (is_of kind) all.now }
{
    let mut count = 0;
    for got in all {
        if is_of(kind, got) {
            count += 1;
        }
    }
    count
}

/// Who writes and follows a log.
fn role(outcome: &Outcome, log: u32) -> &Role
    requires { log < outcome.now.shape.logs }
    ensures role { slice_get outcome.now.roles log ≡ Some result.now }
    ensures followers_in { (i : ℕ) → i < length result.now.followers →
        slice_index result.now.followers i < length outcome.now.clients }
{
    &outcome.roles.as_slice()[log as usize]
}
