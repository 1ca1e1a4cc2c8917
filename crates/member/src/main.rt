//! The program: a member over the standard streams, whose packets a switch carries to and from its servers.
#![tactic(auto)]

use std::io::Write;
use std::process::ExitCode;
use tk_io::{StdSink, StdSource};
use tk_member::take_part;
use tk_packets::Streams;

fn main(rt: HostRuntime) -> ExitCode {
    let mut line = Streams {
        source: StdSource::new(rt.stdin()),
        sink: StdSink::new(rt.stdout()),
    };
    match take_part(rt.alloc(), &mut line) {
        Ok(()) => ExitCode::from(0),
        Err(fault) => {
            // where this can't be told the code tells it
            let _ = rt.stderr().write_all(fault.line());
            ExitCode::from(fault.code())
        }
    }
}
