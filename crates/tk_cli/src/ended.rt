use crate::status::Status;
use tk_cluster::Closed;
use tk_report::Outcome;

/// How the top call ended.
#[derive(Drop)]
pub struct Ended {
    pub status: Status,
    /// What the run left: there exactly where a run is done.
    pub outcome: Option<Outcome>,
    /// What the run's cluster had: there exactly where a run with threads is done.
    pub closed: Option<Closed>,
}

impl Ended {
    ghost use Rattle.std.specs.Prelude.{◌≡◌};
    ghost use Rattle.tk_cli.specs.Endings.{HandsNothing};

    /// An ending with which nothing is handed back.
    pub(crate) fn without(status: Status) -> Ended
        ensures status { result.status ≡ status }
        ensures nothing { HandsNothing result }
    {
        Ended {
            status,
            outcome: None,
            closed: None,
        }
    }
}
