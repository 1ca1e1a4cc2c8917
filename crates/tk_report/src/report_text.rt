ghost use Rattle.std.specs.Prelude.{◌≡◌, ◌++◌, OnOk, OnErr};
ghost use Rattle.tk_report.specs.Leaving.{unsent_by, left_text};
ghost use Rattle.tk_report.specs.Report.{unsent_line, unsent_lines};

use crate::history_text::push_history;
use crate::left::Left;
use crate::log_text::push_logs;
use crate::told_by::Telling;
use std::alloc::Global;
use tk_script::push_numbers_line;
use tk_shape::Memory;

/// Appends a report: the turns of its history, what each log gave to each follower, and how many
/// texts each client has left over. If memory runs out, nothing is appended.
pub(crate) fn print_told<L: Left>(
    alloc: Global,
    told: &Telling<L>,
    out: &mut Vec<u8>,
) -> Result<(), Memory>
    ensures ok { OnOk result (out.new.items ≡ out.old.items ++ left_text told.now.shape.now
        told.now.roles.now told.now.history.now (L.clients told.now.left.now)) }
    ensures err { OnErr result (out.new.items ≡ out.old.items) }
{
    let mut text = Vec::new(alloc);
    push_told(alloc, told, &mut text)?;
    out.extend_from_slice(text.as_slice())?;
    Ok(())
}

/// Appends it part by part.
fn push_told<L: Left>(alloc: Global, told: &Telling<L>, out: &mut Vec<u8>) -> Result<(), Memory>
    ensures ok { OnOk result (out.new.items ≡ out.old.items ++ left_text told.now.shape.now
        told.now.roles.now told.now.history.now (L.clients told.now.left.now)) }
{
    out.extend_from_slice(b"report\n")?;
    push_history(alloc, told.shape, told.history, out)?;
    push_logs(alloc, told, out)?;
    push_all_unsent(alloc, told, out)?;
    out.extend_from_slice(b"end\n")?;
    Ok(())
}

/// Appends how many texts each client has left over.
fn push_all_unsent<L: Left>(
    alloc: Global,
    told: &Telling<L>,
    out: &mut Vec<u8>,
) -> Result<(), Memory>
    ensures ok { OnOk result (out.new.items ≡ out.old.items
        ++ unsent_lines told.now.shape.now.clients (unsent_by (L.clients told.now.left.now))) }
{
    for client in 0..told.shape.clients {
        push_unsent(alloc, client, told.left.unsent(client), out)?;
    }
    Ok(())
}

/// Appends how many texts a client has left over.
fn push_unsent(alloc: Global, client: u32, count: u32, out: &mut Vec<u8>) -> Result<(), Memory>
    ensures ok { OnOk result (out.new.items ≡ out.old.items ++ unsent_line client count) }
{
    push_numbers_line(
        alloc,
        b"unsent",
        &[u64::from(client), u64::from(count)],
        out,
    )
}
