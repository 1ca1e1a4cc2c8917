//! The word `serial`: the report of an input's serial run.
ghost use Rattle.std.specs.Prelude.{◌≡◌, ◌≤◌, IfOk, IfErr, OnOk, OnErr};
ghost use Rattle.tk_io.specs.Content.{Rose};
ghost use Rattle.tk_io.specs.Tapped.{TapsGain, TapsGainFronts, TapsKeepBut};
ghost use Rattle.tk_schedule.specs.Schedule.{serial_history};
ghost use Rattle.tk_words.specs.Words.{words_of};
ghost use Rattle.tk_words.specs.Book.{shape_of, words_in};
ghost use Rattle.tk_report.specs.Outcomes.{IsLeftBy};
ghost use Rattle.tk_run.specs.Plays.{serial_sight};
ghost use Rattle.tk_cli.specs.Endings.{EndsFromTo};

use crate::ended::Ended;
use crate::input::ready;
use crate::request::Request;
use crate::tell::tell_left;
use std::alloc::Global;
use tk_io::{Sink, Source, Taps};
use tk_report::{Outcome, ends};
use tk_run::{RunError, serial};
use tk_script::{Form, Script};
use tk_words::Book;

/// The word `serial`.
pub(crate) fn run_serial<S: Source, K: Sink, T: Taps>(
    alloc: Global,
    source: &mut S,
    sink: &mut K,
    taps: &mut T,
) -> Ended
    ensures { EndsFromTo Request.Serial result S.left S.faults K.held K.faults T.tap T.faults
        source.old sink.old taps.old source.new sink.new taps.new }
{
    let (script, book) = match ready(alloc, source, Form::Run) {
        Ok(input) => input,
        Err(status) => return Ended::without(status),
    };
    let left = serial_by(alloc, &script, &book, taps);
    ends();
    tell_left(alloc, left, sink)
}

/// What the serial run of a script by the words of a book leaves.
pub(crate) fn serial_by<T: Taps>(
    alloc: Global,
    script: &Script,
    book: &Book,
    taps: &mut T,
) -> Result<Outcome, RunError>
    requires one_shape { shape_of book.now ≡ script.now.shape }
    ensures left { let words = words_of script.now.shape (words_in book.now) in
        IfOk result (IsLeftBy script.now words (serial_history script.now.shape)) }
    ensures ok { OnOk result (TapsGain script.now.shape.servers
        (serial_sight script.now (words_in book.now)) (T.tap taps.old) (T.tap taps.new)) }
    ensures err { OnErr result (TapsGainFronts script.now.shape.servers
        (serial_sight script.now (words_in book.now)) (T.tap taps.old) (T.tap taps.new)) }
    ensures others { TapsKeepBut script.now.shape.servers (T.tap taps.old) (T.tap taps.new) }
    ensures rose { IfErr result (λ e. e ≡ RunError.Taps
        → Rose (T.faults taps.old) (T.faults taps.new)) }
    ensures counts { T.faults taps.old ≤ T.faults taps.new }
{
    match book {
        Book::Keyed(draws) => serial(alloc, script, draws, taps),
        Book::Drawn(draws) => serial(alloc, script, draws, taps),
    }
}
