//! The program: a server over the standard streams, whose packets a switch carries to and from its clients.
#![tactic(auto)]

use std::io::Write;
use std::process::ExitCode;
use tk_io::{StdSink, StdSource};
use tk_packets::Streams;
use tk_serve::serve;

fn main(rt: HostRuntime) -> ExitCode {
    let mut line = Streams {
        source: StdSource::new(rt.stdin()),
        sink: StdSink::new(rt.stdout()),
    };
    match serve(rt.alloc(), &mut line) {
        Ok(()) => ExitCode::from(0),
        Err(fault) => {
            // where this can't be told the code tells it
            let _ = rt.stderr().write_all(fault.line());
            ExitCode::from(fault.code())
        }
    }
}
