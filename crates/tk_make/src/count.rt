ghost use Rattle.std.specs.Prelude.{◌≡◌, IfOk};
ghost use Rattle.tk_report.specs.Leaving.{left_over};
ghost use Rattle.tk_make.specs.Tallies.{counts_left};

use crate::counts::Counts;
use crate::given::given;
use crate::kind::Kind;
use crate::sum::plus;
use tk_report::Outcome;
use tk_shape::Memory;

/// The counts of what a run left.
pub(crate) fn count(outcome: &Outcome) -> Result<Counts, Memory>
    ensures { IfOk result (λ counts. counts ≡ counts_left outcome.now) }
{
    let said = u64::from(outcome.said);
    let unsent = unsent(outcome)?;
    let sent = said - unsent;
    let writes = u64::from(outcome.shape.clients * outcome.shape.turns());
    Ok(Counts {
        said,
        sent,
        dummies: writes - sent,
        displaced: u64::from(outcome.displaced),
        delivered: given(outcome, Kind::Delivered)?,
        absent: given(outcome, Kind::Absent)?,
        unsent,
    })
}

/// How many texts the clients have left over.
fn unsent(outcome: &Outcome) -> Result<u64, Memory>
    ensures { IfOk result (λ n. n ≡ left_over outcome.now.clients) }
{
    let mut sum = 0;
    let clients = outcome.clients.as_slice();
    for client in clients {
        sum = plus(sum, u64::from(client.unsent()))?;
    }
    Ok(sum)
}
