//! The program: the top call over the words, the standard streams and no taps; and, where they are compiled, the tests of
//! the top call, with those of runs that it stands on.
#![tactic(auto)]

#[cfg(test)]
mod crowd_tests;
#[cfg(test)]
mod cut_tests;
#[cfg(test)]
mod each_fault_tests;
#[cfg(test)]
mod fault_tests;
#[cfg(test)]
mod format_tests;
#[cfg(test)]
mod gate_tests;
#[cfg(test)]
mod group_tests;
#[cfg(test)]
mod kind_tests;
#[cfg(test)]
mod refusal_tests;
#[cfg(test)]
mod relay_tests;
#[cfg(test)]
mod report_tests;
#[cfg(test)]
mod resume_tests;
#[cfg(test)]
mod schedule_tests;
#[cfg(test)]
mod serial_tests;
#[cfg(test)]
mod status_tests;
#[cfg(test)]
mod tap_tests;
#[cfg(test)]
mod testing;
#[cfg(test)]
mod thread_tests;
#[cfg(test)]
mod traces;
#[cfg(test)]
mod view_tests;
#[cfg(test)]
mod word_tests;
#[cfg(test)]
mod wrong_tests;

use std::env;
use std::io::{ErrorKind, Write};
use std::process::ExitCode;
use std::rt::Env;
use tk_cli::{Status, exit_after, exit_with};
use tk_io::{NoTaps, OpenGate, StdSink, StdSource};
use tk_shape::Bytes;

/// The words of the program, each the bytes of one argument; or the status where there are none. An argument that is no
/// text is no word of any form.
fn words_of<R: Env + AllocGlobal>(rt: &R) -> Result<Vec<Bytes>, Status> {
    let args = match env::args(rt) {
        Ok(args) => args,
        Err(e) if e.kind() == ErrorKind::InvalidData => return Err(Status::Usage),
        Err(_) => return Err(Status::Memory),
    };
    let mut words = Vec::new(rt.alloc());
    for arg in args.skip(1) {
        let Ok(word) = Bytes::from_slice(rt.alloc(), arg.as_bytes()) else {
            return Err(Status::Memory);
        };
        if words.push(word).is_err() {
            return Err(Status::Memory);
        }
    }
    Ok(words)
}

fn main(rt: HostRuntime) -> ExitCode {
    let exit = match words_of(&rt) {
        Ok(words) => {
            let mut source = StdSource::new(rt.stdin());
            let mut sink = StdSink::new(rt.stdout());
            exit_after(
                &rt,
                words.as_slice(),
                &mut source,
                &mut sink,
                &mut NoTaps,
                &OpenGate,
            )
        }
        Err(status) => exit_with(rt.alloc(), &status),
    };
    // what can't be told there is told by the code alone
    if let Ok(line) = &exit.line {
        let _ = rt.stderr().write_all(line.as_slice());
    }
    ExitCode::from(exit.code)
}
