ghost use Rattle.std.specs.Prelude.{◌≡◌, ◌++◌, OnOk, OnErr};
ghost use Rattle.tk_make.specs.Tallies.{count_line, lines_of_counts, tally_left};

use crate::count::count;
use crate::counts::Counts;
use std::alloc::Global;
use tk_report::Outcome;
use tk_script::push_numbers_line;
use tk_shape::Memory;

/// Appends the counts of what a run left, a line for each. If memory runs out, nothing is
/// appended.
pub fn tally(outcome: &Outcome, out: &mut Vec<u8>) -> Result<(), Memory>
    ensures ok { OnOk result (out.new.items ≡ out.old.items ++ tally_left outcome.now) }
    ensures err { OnErr result (out.new.items ≡ out.old.items) }
{
    let alloc = *out.allocator();
    let counts = count(outcome)?;
    let mut text = Vec::new(alloc);
    push_counts(alloc, &counts, &mut text)?;
    out.extend_from_slice(text.as_slice())?;
    Ok(())
}

/// Appends the lines of the counts.
fn push_counts(alloc: Global, counts: &Counts, out: &mut Vec<u8>) -> Result<(), Memory>
    ensures { OnOk result (out.new.items ≡ out.old.items ++ lines_of_counts counts.now) }
{
    push_count(alloc, b"said", counts.said, out)?;
    push_count(alloc, b"sent", counts.sent, out)?;
    push_count(alloc, b"dummies", counts.dummies, out)?;
    push_count(alloc, b"displaced", counts.displaced, out)?;
    push_count(alloc, b"delivered", counts.delivered, out)?;
    push_count(alloc, b"absent", counts.absent, out)?;
    push_count(alloc, b"unsent", counts.unsent, out)
}

/// Appends the line of a count.
fn push_count(alloc: Global, word: &[u8], count: u64, out: &mut Vec<u8>) -> Result<(), Memory>
    ensures { OnOk result (out.new.items ≡ out.old.items ++ count_line word.now count) }
{
    push_numbers_line(alloc, word, &[count], out)
}
