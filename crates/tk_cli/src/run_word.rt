//! The word `run`: the report of the history that came about.
ghost use Rattle.std.specs.Prelude.{◌≡◌, ◌≤◌, IfErr};
ghost use Rattle.tk_io.specs.Content.{Rose};
ghost use Rattle.tk_words.specs.Book.{shape_of, words_in};
ghost use Rattle.tk_run.specs.Threads.{CameAbout};
ghost use Rattle.tk_cli.specs.Endings.{EndsFromTo};

use crate::ended::Ended;
use crate::input::ready;
use crate::request::Request;
use crate::status::Status;
use crate::tell::tell;
use std::alloc::AllocGlobal;
use std::sync::Wait;
use std::thread::Threads;
use tk_cluster::Closed;
use tk_io::{Gate, Sink, Source, Taps};
use tk_report::{Outcome, ends, one_history};
use tk_run::{RunError, threads};
use tk_script::{Form, Script};
use tk_words::Book;

/// Who runs: its threads, the gate that they come to, how many answer reads, and over how many shards of a server's
/// buckets.
#[derive(Drop)]
pub(crate) struct Crew<'a, R, G> {
    pub rt: &'a R,
    pub gate: &'a G,
    pub workers: u32,
    pub shards: u32,
}

/// The word `run`.
pub(crate) fn run_threads<
    R: Threads + Wait + Sync + AllocGlobal,
    S: Source,
    K: Sink,
    T: Taps,
    G: Gate,
>(crew: &Crew<R, G>, source: &mut S, sink: &mut K, taps: &mut T) -> Ended
    requires workers { (1 ≤ crew.now.workers) × (crew.now.workers ≤ 64) }
    requires shards { (1 ≤ crew.now.shards) × (crew.now.shards ≤ 64) }
    ensures { EndsFromTo (Request.Run crew.now.workers crew.now.shards) result
        S.left S.faults K.held K.faults T.tap T.faults
        source.old sink.old taps.old source.new sink.new taps.new }
{
    let alloc = crew.rt.alloc();
    let (script, book) = match ready(alloc, source, Form::Run) {
        Ok(input) => input,
        Err(status) => return Ended::without(status),
    };
    let (outcome, closed) = match threads_by(crew, &script, &book, taps) {
        Ok(left) => left,
        Err(error) => return Ended::without(Status::from(error)),
    };
    ends();
    one_history();
    tell(alloc, outcome, Some(closed), sink)
}

/// What the run of a script with threads leaves, by the words of a book.
fn threads_by<R: Threads + Wait + Sync + AllocGlobal, T: Taps, G: Gate>(
    crew: &Crew<R, G>,
    script: &Script,
    book: &Book,
    taps: &mut T,
) -> Result<(Outcome, Closed), RunError>
    requires workers { (1 ≤ crew.now.workers) × (crew.now.workers ≤ 64) }
    requires shards { (1 ≤ crew.now.shards) × (crew.now.shards ≤ 64) }
    requires one_shape { shape_of book.now ≡ script.now.shape }
    ensures run { CameAbout script.now (words_in book.now) result
        (T.tap taps.old) (T.tap taps.new) }
    ensures rose { IfErr result (λ e. e ≡ RunError.Taps
        → Rose (T.faults taps.old) (T.faults taps.new)) }
    ensures counts { T.faults taps.old ≤ T.faults taps.new }
{
    let (workers, shards) = (crew.workers, crew.shards);
    match book {
        Book::Keyed(draws) => threads(crew.rt, script, draws, taps, crew.gate, workers, shards),
        Book::Drawn(draws) => threads(crew.rt, script, draws, taps, crew.gate, workers, shards),
    }
}
