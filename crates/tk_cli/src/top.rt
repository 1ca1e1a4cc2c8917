ghost use Rattle.std.specs.Prelude.{◌≡◌, ◌↔◌};
ghost use Rattle.tk_cli.specs.declared.request.Request.{Request as Requested};
ghost use Rattle.tk_cli.specs.Endings.{EndsFromTo};
ghost use Rattle.tk_cli.specs.Requests.{Asks, AsksNothing};

use crate::ended::Ended;
use crate::handle_word::handle_line;
use crate::lift_word::lift_text;
use crate::make_word::make_text;
use crate::mirror_word::mirror_text;
use crate::relay_word::run_relayed;
use crate::request::{Request, request_of};
use crate::resume_word::run_resumed;
use crate::run_word::{Crew, run_threads};
use crate::serial_word::run_serial;
use crate::status::Status;
use crate::tally_word::tally_text;
use crate::tell::answer;
use crate::view_word::view_text;
use crate::wrong_word::wrong_text;
use std::alloc::AllocGlobal;
use std::sync::Wait;
use std::thread::Threads;
use tk_io::{Gate, Sink, Source, Taps};
use tk_shape::Bytes;

/// Does what the words ask for. A form that reads an input reads all of it from the source, and then writes its whole
/// output to the sink at once. A run gives the taps before that what each server sees; with threads, its clients and
/// its publisher come to the gate.
pub fn talek<R: Threads + Wait + Sync + AllocGlobal, S: Source, K: Sink, T: Taps, G: Gate>(
    rt: &R,
    words: &[Bytes],
    source: &mut S,
    sink: &mut K,
    taps: &mut T,
    gate: &G,
) -> Ended
    ensures usage { (result.status ≡ Status.Usage) ↔ AsksNothing words.now }
    ensures ends { (request : Requested) → Asks words.now request
        → EndsFromTo request result S.left S.faults K.held K.faults T.tap T.faults
        source.old sink.old taps.old source.new sink.new taps.new }
{
    let alloc = rt.alloc();
    match request_of(words) {
        Request::Serial => run_serial(alloc, source, sink, taps),
        Request::Relay => run_relayed(rt, source, sink, taps),
        Request::Resume { epoch } => run_resumed(alloc, epoch, source, sink, taps),
        Request::Run { workers, shards } => {
            let crew = Crew {
                rt,
                gate,
                workers,
                shards,
            };
            run_threads(&crew, source, sink, taps)
        }
        Request::View { server } => answer(view_text(alloc, server, source), sink),
        Request::Mirror { hidden } => answer(mirror_text(alloc, hidden, source), sink),
        Request::Wrong { hidden } => answer(wrong_text(alloc, hidden, source), sink),
        Request::Handle { id, root } => answer(handle_line(alloc, id, &root), sink),
        Request::Make { number } => answer(make_text(alloc, number), sink),
        Request::Tally { number } => answer(tally_text(alloc, number), sink),
        Request::Lift => answer(lift_text(alloc, source), sink),
        Request::Nothing => Ended::without(Status::Usage),
    }
}
