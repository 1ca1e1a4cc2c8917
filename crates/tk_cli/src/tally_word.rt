//! The word `tally`: the counts of the serial run of the script that is made from a number.
ghost use Rattle.std.specs.Prelude.{◌≡◌, IsSome, None, IfOk, IfErr};
ghost use Rattle.tk_schedule.specs.Schedule.{serial_history};
ghost use Rattle.tk_script.specs.Book.{book_from};
ghost use Rattle.tk_words.specs.Words.{words_of};
ghost use Rattle.tk_report.specs.Outcomes.{IsLeftBy};
ghost use Rattle.tk_cli.specs.Texts.{IsTallyText};

use crate::serial_word::serial_by;
use crate::status::Status;
use std::alloc::Global;
use tk_io::NoTaps;
use tk_make::{generate, tallies, tally};
use tk_report::Outcome;
use tk_script::Script;
use tk_shape::Memory;

/// The counts of a number's script, as they are printed. Only memory may be wanting.
pub(crate) fn tally_text(alloc: Global, number: u64) -> Result<Vec<u8>, Status>
    ensures text { IfOk result (λ text. IsTallyText number text.items) }
    ensures memory { IfErr result (λ s. s ≡ Status.Memory) }
{
    Ok(counts_of(alloc, number)?)
}

/// The counts of a number's script, as they are printed.
fn counts_of(alloc: Global, number: u64) -> Result<Vec<u8>, Memory>
    ensures { IfOk result (λ text. IsTallyText number text.items) }
{
    let script = generate(alloc, number)?;
    let outcome = untapped(alloc, &script)?;
    let mut text = Vec::new(alloc);
    tally(&outcome, &mut text)?;
    tallies();
    Ok(text)
}

/// What the serial run of a keyed script leaves, of which no server's tap is told.
fn untapped(alloc: Global, script: &Script) -> Result<Outcome, Memory>
    requires { IsSome script.now.keys }
    ensures { let words = words_of script.now.shape (book_from script.now.keys None) in
        IfOk result (IsLeftBy script.now words (serial_history script.now.shape)) }
{
    let Ok(book) = script.book(alloc, None) else {
        return Err(Memory);
    };
    match serial_by(alloc, script, &book, &mut NoTaps) {
        Ok(outcome) => Ok(outcome),
        Err(_) => Err(Memory),
    }
}
