//! What is written to the sink.
ghost use Rattle.std.specs.Prelude.{◌≡◌, ◌≤◌, None, IfOk, IfErr};
ghost use Rattle.tk_report.specs.Outcomes.{outcome_text};
ghost use Rattle.tk_cli.specs.Errors.{run_status};
ghost use Rattle.tk_cli.specs.Puts.{PutsText, PutsNothing};
ghost use Rattle.tk_cli.specs.Endings.{HandsAs, HandsNothing};

use crate::ended::Ended;
use crate::status::Status;
use std::alloc::Global;
use tk_cluster::Closed;
use tk_io::{Sink, put_all};
use tk_report::{Outcome, print_outcome};
use tk_run::RunError;

/// Writes a text to a sink at once.
pub(crate) fn put<K: Sink>(text: &[u8], sink: &mut K) -> Status
    ensures puts { PutsText result text.now (K.held sink.old) (K.held sink.new)
        (K.faults sink.old) (K.faults sink.new) }
    ensures counts { K.faults sink.old ≤ K.faults sink.new }
{
    match put_all(sink, text) {
        Ok(()) => Status::Done,
        Err(_) => Status::Write,
    }
}

/// Writes a text to a sink at once, where there is one.
pub(crate) fn answer<K: Sink>(text: Result<Vec<u8>, Status>, sink: &mut K) -> Ended
    ensures nothing { HandsNothing result }
    ensures puts { IfOk text (λ t. PutsText result.status t.items (K.held sink.old) (K.held sink.new)
        (K.faults sink.old) (K.faults sink.new)) }
    ensures status { IfErr text (λ s. result.status ≡ s) }
    ensures quiet { IfErr text (λ s. PutsNothing (K.held sink.old) (K.held sink.new)
        (K.faults sink.old) (K.faults sink.new)) }
    ensures counts { K.faults sink.old ≤ K.faults sink.new }
{
    match text {
        Ok(text) => Ended::without(put(text.as_slice(), sink)),
        Err(status) => Ended::without(status),
    }
}

/// Writes the report of what a run left to a sink, and hands back what it left where that is done.
pub(crate) fn tell<K: Sink>(
    alloc: Global,
    outcome: Outcome,
    closed: Option<Closed>,
    sink: &mut K,
) -> Ended
    ensures puts { PutsText result.status (outcome_text outcome) (K.held sink.old) (K.held sink.new)
        (K.faults sink.old) (K.faults sink.new) }
    ensures handed { HandsAs result.status result outcome closed }
    ensures counts { K.faults sink.old ≤ K.faults sink.new }
{
    let mut report = Vec::new(alloc);
    if print_outcome(alloc, &outcome, &mut report).is_err() {
        return Ended::without(Status::Memory);
    }
    let status = put(report.as_slice(), sink);
    if status != Status::Done {
        return Ended::without(status);
    }
    Ended {
        status,
        outcome: Some(outcome),
        closed,
    }
}

/// Writes the report of what a run without a cluster left to a sink, as `tell` does; or tells why it left nothing.
pub(crate) fn tell_left<K: Sink>(
    alloc: Global,
    left: Result<Outcome, RunError>,
    sink: &mut K,
) -> Ended
    ensures puts { IfOk left (λ outcome. PutsText result.status (outcome_text outcome)
        (K.held sink.old) (K.held sink.new) (K.faults sink.old) (K.faults sink.new)) }
    ensures handed { IfOk left (λ outcome. HandsAs result.status result outcome None) }
    ensures status { IfErr left (λ e. result.status ≡ run_status e) }
    ensures nothing { IfErr left (λ e. HandsNothing result) }
    ensures quiet { IfErr left (λ e. PutsNothing (K.held sink.old) (K.held sink.new)
        (K.faults sink.old) (K.faults sink.new)) }
    ensures counts { K.faults sink.old ≤ K.faults sink.new }
{
    match left {
        Ok(outcome) => tell(alloc, outcome, None, sink),
        Err(error) => Ended::without(Status::from(error)),
    }
}
