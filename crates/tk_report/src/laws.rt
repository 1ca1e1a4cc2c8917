//! What all runs have in common.
ghost use Rattle.tk_report.specs.Anew.{AlikeRuns, AnewFromOwn};
ghost use Rattle.tk_report.specs.Agreement.{EntriesAgree, TurnEntriesAgree, MarkedSoFar};
ghost use Rattle.tk_report.specs.Agreement.{ReadersAgree, AlikeReadsAgree, AlikeFramesAgree};
ghost use Rattle.tk_report.specs.Agreement.{AlikeViewsAgree, AlikeAfterTurn, AlikeWhereOpen};
ghost use Rattle.tk_report.specs.Agreement.{AlikeWhereOld, StandingMarks, PhasesMarked};
ghost use Rattle.tk_report.specs.Agreement.{EpochsMade, FrontsAgree};
ghost use Rattle.tk_report.specs.Delivered.{DeliversAsWritten, SentInRange, ClearIsTested};
ghost use Rattle.tk_report.specs.Delivered.{EachIsWritten, EpochsOrdered, LayoutGivesLookup};
ghost use Rattle.tk_report.specs.Delivered.{EpochsStorable, BytesGiveLookup};
ghost use Rattle.tk_report.specs.Histories.{ReportsShow, ShowsOne, OrdersAndEpochsTell};
ghost use Rattle.tk_report.specs.Histories.{EntriesTellOrders, TurnsReadOff};
ghost use Rattle.tk_report.specs.Leaving.{EndsLeave, EndsReport, EndsCountSaid, EndsUnsent};
ghost use Rattle.tk_report.specs.Lifted.{LiftedReports};
ghost use Rattle.tk_report.specs.Outcomes.{OutcomesReport};
ghost use Rattle.tk_report.specs.PassingOver.{HonestPassingOver, RecordsAreShown};
ghost use Rattle.tk_report.specs.Queues.{QueuesSend};
ghost use Rattle.tk_report.specs.Serving.{HonestReaders, HonestExchange, HonestReport};

/// A number that is recorded as absent was rightly passed over: its record, if there is one, wasn't
/// retained in the epoch from which the reader got the next number that it did get. This holds for
/// whatever history.
pub fn honest_passing_over()
    ensures { HonestPassingOver }
{}

/// A number whose record is among the latest writes is shown by their filter, displaced or not.
pub fn records_are_shown()
    ensures { RecordsAreShown }
{}

/// What a client has waiting first in a turn, once the texts of the turn were said, is what its
/// script sends in it, with a number that a log may have; and what waits at the end is unsent.
pub fn queues_send()
    ensures { QueuesSend }
{}

/// What a run shows up to a turn depends on the turns up to it alone.
pub fn agreement()
    ensures entries { EntriesAgree }
    ensures turn_entries { TurnEntriesAgree }
    ensures marked { MarkedSoFar }
    ensures readers { ReadersAgree }
    ensures reads { AlikeReadsAgree }
    ensures frames { AlikeFramesAgree }
    ensures views { AlikeViewsAgree }
    ensures after_turn { AlikeAfterTurn }
    ensures where_open { AlikeWhereOpen }
    ensures where_old { AlikeWhereOld }
{}

/// A report shows its history, and that one alone.
pub fn one_history()
    ensures shows { ReportsShow }
    ensures one { ShowsOne }
{}

/// In a clear run what is retained is delivered as it was written, and nothing else is. A run is
/// clear where no write gives a text for a number but the record of that number.
pub fn delivered()
    ensures delivers { DeliversAsWritten }
    ensures in_range { SentInRange }
{}

/// When the marks of a run are made, and what stands before them.
pub fn marks()
    ensures standing { StandingMarks }
    ensures phases { PhasesMarked }
    ensures epochs { EpochsMade }
    ensures fronts { FrontsAgree }
{}

/// A legal history is told by its orders and by the epochs of its closing turns, and its orders by
/// its entries.
pub fn told()
    ensures orders_and_epochs { OrdersAndEpochsTell }
    ensures entries { EntriesTellOrders }
    ensures read_off { TurnsReadOff }
{}

/// A test tells whether a run is clear.
pub fn clear()
    ensures tested { ClearIsTested }
    ensures written { EachIsWritten }
{}

/// The table's two buckets of a number give what is looked up.
pub fn laid_out()
    ensures ordered { EpochsOrdered }
    ensures lookup { LayoutGivesLookup }
    ensures storable { EpochsStorable }
    ensures bytes { BytesGiveLookup }
{}

/// The clients at the end of a run of a legal history are those of an outcome, whose text is the
/// report. What they have left over and what each may send bound what was said.
pub fn ends()
    ensures leave { EndsLeave }
    ensures report { EndsReport }
    ensures said { EndsCountSaid }
    ensures unsent { EndsUnsent }
    ensures outcome { OutcomesReport }
{}

/// A script in format 2 has the report that it has in its own format.
pub fn lifted()
    ensures { LiftedReports }
{}

/// A run whose servers tell and reply what they do of what they hold is the run: each client knows
/// what it knows in it, each server sees the same, and the report is the same.
pub fn honest_servers()
    ensures readers { HonestReaders }
    ensures exchange { HonestExchange }
    ensures report { HonestReport }
{}

/// Servers that are alike make the same run. Those that before a turn hold anew the entries so far
/// make the run.
pub fn servers_alike()
    ensures alike { AlikeRuns }
    ensures anew { AnewFromOwn }
{}
