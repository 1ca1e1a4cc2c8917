//! The word `relay`: the report of the serial run of a keyed script, in which each read goes by way of server 1.
ghost use Rattle.std.specs.Prelude.{◌≡◌, ◌≤◌, Some, IfOk, IfErr, OnOk, OnErr};
ghost use Rattle.tk_io.specs.Content.{Rose};
ghost use Rattle.tk_io.specs.Tapped.{TapsGain, TapsGainFronts, TapsKeepBut};
ghost use Rattle.tk_schedule.specs.Schedule.{serial_history};
ghost use Rattle.tk_words.specs.Words.{keyed, words_of};
ghost use Rattle.tk_words.specs.Book.{shape_of, words_in};
ghost use Rattle.tk_report.specs.Outcomes.{IsLeftBy};
ghost use Rattle.tk_cli.specs.Endings.{EndsFromTo, relayed_sight};
ghost use Rattle.tk_cli.specs.Inputs.{HasBookOfKeys};

use crate::ended::Ended;
use crate::input::ready;
use crate::request::Request;
use crate::tell::tell_left;
use std::alloc::AllocGlobal;
use std::sync::Wait;
use tk_io::{Sink, Source, Taps};
use tk_relay::{RelayRunError, relayed};
use tk_report::{Outcome, ends};
use tk_run::RunError;
use tk_script::{Form, Script};
use tk_words::Book;

/// The word `relay`.
pub(crate) fn run_relayed<S: Source, K: Sink, T: Taps, R: Wait + AllocGlobal>(
    rt: &R,
    source: &mut S,
    sink: &mut K,
    taps: &mut T,
) -> Ended
    ensures { EndsFromTo Request.Relay result S.left S.faults K.held K.faults T.tap T.faults
        source.old sink.old taps.old source.new sink.new taps.new }
{
    let alloc = rt.alloc();
    let (script, book) = match ready(alloc, source, Form::Relay) {
        Ok(input) => input,
        Err(status) => return Ended::without(status),
    };
    let left = relayed_by(rt, &script, &book, taps);
    ends();
    tell_left(alloc, left, sink)
}

/// What the run of a keyed script leaves whose reads go by way of server 1.
fn relayed_by<T: Taps, R: Wait + AllocGlobal>(
    rt: &R,
    script: &Script,
    book: &Book,
    taps: &mut T,
) -> Result<Outcome, RunError>
    requires one_shape { shape_of book.now ≡ script.now.shape }
    requires keyed { HasBookOfKeys script.now (words_in book.now) }
    ensures left { let words = words_of script.now.shape (words_in book.now) in
        IfOk result (IsLeftBy script.now words (serial_history script.now.shape)) }
    ensures ok { OnOk result (TapsGain script.now.shape.servers
        (relayed_sight script.now (words_in book.now)) (T.tap taps.old) (T.tap taps.new)) }
    ensures err { OnErr result (TapsGainFronts script.now.shape.servers
        (relayed_sight script.now (words_in book.now)) (T.tap taps.old) (T.tap taps.new)) }
    ensures others { TapsKeepBut script.now.shape.servers (T.tap taps.old) (T.tap taps.new) }
    ensures rose { IfErr result (λ e. e ≡ RunError.Taps
        → Rose (T.faults taps.old) (T.faults taps.new)) }
    ensures counts { T.faults taps.old ≤ T.faults taps.new }
{
    let Some(keys) = &script.keys else {
        unreachable!()
    };
    let Book::Keyed(draws) = book else {
        unreachable!()
    };
    match relayed(rt, script, draws, keys.seeds.as_slice(), taps) {
        Ok(outcome) => Ok(outcome),
        Err(RelayRunError::Taps) => Err(RunError::Taps),
        Err(RelayRunError::Memory) => Err(RunError::Memory),
    }
}
