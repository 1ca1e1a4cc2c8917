ghost use Rattle.std.specs.Prelude.{◌≡◌, IfOk};
ghost use Rattle.tk_cli.specs.declared.ended.Ended.{Ended as EndOfRun};
ghost use Rattle.tk_cli.specs.declared.request.Request.{Request as Requested};
ghost use Rattle.tk_cli.specs.Endings.{EndsFromTo};
ghost use Rattle.tk_cli.specs.Exits.{ExitsWith, exit_line};
ghost use Rattle.tk_cli.specs.Requests.{Asks};

use crate::status::{Status, status_line};
use crate::top::talek;
use std::alloc::{AllocGlobal, Global};
use std::sync::Wait;
use std::thread::Threads;
use tk_io::{Gate, Sink, Source, Taps};
use tk_shape::{Bytes, Memory};

/// How the process ends.
#[derive(Debug, Drop)]
pub struct Exit {
    /// What it writes to standard error, if there is memory for it: the line that tells why not all is done, with its
    /// line feed, and nothing where all is.
    pub line: Result<Vec<u8>, Memory>,
    /// Its exit code.
    pub code: u8,
}

/// Does what the words ask for, as `talek` does, and tells how the process ends then.
pub fn exit_after<R: Threads + Wait + Sync + AllocGlobal, S: Source, K: Sink, T: Taps, G: Gate>(
    rt: &R,
    words: &[Bytes],
    source: &mut S,
    sink: &mut K,
    taps: &mut T,
    gate: &G,
) -> Exit
    ensures { (ended : EndOfRun) × ExitsWith ended.status result × ((request : Requested) →
        Asks words.now request → EndsFromTo request ended S.left S.faults K.held K.faults T.tap T.faults
        source.old sink.old taps.old source.new sink.new taps.new) }
{
    let ended = talek(rt, words, source, sink, taps, gate);
    exit_with(rt.alloc(), &ended.status)
}

/// How the process ends with a status.
pub fn exit_with(alloc: Global, status: &Status) -> Exit
    ensures { ExitsWith status.now result }
{
    Exit {
        line: line_of(alloc, status),
        code: status.code(),
    }
}

/// The line that tells a status, with its line feed; nothing for one that is done.
fn line_of(alloc: Global, status: &Status) -> Result<Vec<u8>, Memory>
    ensures { IfOk result (λ line. line.items ≡ exit_line status.now) }
{
    match status {
        Status::Done => Ok(Vec::new(alloc)),
        _ => {
            let mut line = Vec::new(alloc);
            status_line(alloc, status, &mut line)?;
            line.push(b'\n')?;
            Ok(line)
        }
    }
}
