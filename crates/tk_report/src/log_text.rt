ghost use Rattle.std.specs.Prelude.{◌≡◌, ◌<◌, ◌++◌, ◌∷◌, [], codes, decimal, OnOk};
ghost use Rattle.tk_report.specs.Leaving.{got_by};
ghost use Rattle.tk_report.specs.Report.{line, got_line, got_lines, log_lines, followers_lines, logs_lines};

use crate::left::Left;
use crate::told_by::Telling;
use std::alloc::Global;
use tk_client::Got;
use tk_script::{push_numbers, push_numbers_line};
use tk_shape::Memory;

/// Appends what each log gave to each of its followers.
pub(crate) fn push_logs<L: Left>(
    alloc: Global,
    told: &Telling<L>,
    out: &mut Vec<u8>,
) -> Result<(), Memory>
    ensures ok { OnOk result (out.new.items ≡ out.old.items ++ logs_lines told.now.shape.now.logs
        told.now.roles.now (got_by (L.clients told.now.left.now))) }
{
    for log in 0..told.shape.logs {
        push_followers(alloc, told, log, out)?;
    }
    Ok(())
}

/// Appends what a log gave to each of its followers.
fn push_followers<L: Left>(
    alloc: Global,
    told: &Telling<L>,
    log: u32,
    out: &mut Vec<u8>,
) -> Result<(), Memory>
    requires log_in { log < told.now.shape.now.logs }
    ensures ok { OnOk result (out.new.items ≡ out.old.items
        ++ followers_lines told.now.roles.now (got_by (L.clients told.now.left.now)) log) }
{
    let followers = told.role(log).followers.as_slice();
    for client in followers {
        let got = told.left.got(*client, log);
        push_log(alloc, log, *client, got, out)?;
    }
    Ok(())
}

/// Appends what a log gave to a follower.
fn push_log(
    alloc: Global,
    log: u32,
    client: u32,
    got: &[Got],
    out: &mut Vec<u8>,
) -> Result<(), Memory>
    ensures ok { OnOk result (out.new.items ≡ out.old.items ++ log_lines log client got.now) }
{
    let numbers = [u64::from(log), u64::from(client), got.len() as u64];
    push_numbers_line(alloc, b"log", &numbers, out)?;
    push_all_got(alloc, got, out)
}

/// Appends what each number gave, from 0 on.
fn push_all_got(alloc: Global, all: &[Got], out: &mut Vec<u8>) -> Result<(), Memory>
    ensures ok { OnOk result (out.new.items ≡ out.old.items ++ got_lines 0 all.now) }
{
    for (number, got) in all.iter().enumerate() {
        push_got(alloc, number as u64, got, out)?;
    }
    Ok(())
}

/// Appends what a number gave.
fn push_got(alloc: Global, number: u64, got: &Got, out: &mut Vec<u8>) -> Result<(), Memory>
    ensures ok { OnOk result (out.new.items ≡ out.old.items ++ got_line number got.now) }
{
    match got {
        Got::Absent => push_numbers_line(alloc, b"absent", &[number], out),
        Got::Text(text) => push_text(alloc, number, text.as_slice(), out),
    }
}

/// Appends the text that a number gave.
fn push_text(alloc: Global, number: u64, text: &[u8], out: &mut Vec<u8>) -> Result<(), Memory>
    ensures ok { OnOk result (out.new.items
        ≡ out.old.items ++ line (codes "text" ∷ decimal number ∷ text.now ∷ [])) }
{
    push_numbers(alloc, b"text", &[number], out)?;
    out.push(b' ')?;
    out.extend_from_slice(text)?;
    out.push(b'\n')?;
    Ok(())
}
