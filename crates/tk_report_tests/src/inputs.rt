//! Inputs of two clients, and the reports of one of them.
ghost use Rattle.std.specs.Prelude.{◌≡◌, length, IfOk};
ghost use Rattle.tk_shape.specs.Lengths.{tape_len};

use std::alloc::Global;
use std::test::Fail;
use tk_report::{parse_history, report};
use tk_schedule::HistoryError;
use tk_script::{Form, Script, parse};
use tk_words::{DrawnDraws, Tape};

/// A script of two clients with one text, over two phases of one tick, and a tape of which no dummy
/// opens.
const SCRIPT: &[u8] = b"talek 1
shape 2 8 4 4 24 64 1 0 2 2 1 1
drawn
log 0 1
say 1 1 0 hi
end
tape
fill 11 36
fill 12 36
fill 13 36
fill 14 36
fill 21 10
fill 22 10
fill 23 10
fill 24 10
fill 31 36
fill 32 36
end
";

/// The script and the words that a text spells.
pub fn read(alloc: Global, text: &[u8]) -> Result<(Script, Tape), Fail>
    ensures { IfOk result (λ both. length both.1 ≡ tape_len both.0.shape) }
{
    let input = parse(alloc, text, Form::Run).ok().ok_or("a script")?;
    let bytes = input.tape.ok_or("a tape")?.bytes.into_vec();
    let shape = input.first.shape;
    let tape = Tape::from_bytes(&shape, bytes).ok().ok_or("its length")?;
    Ok((input.first, tape))
}

/// The report of the script where its history is the one that a text shows; or what is wrong with the text.
pub fn reported(alloc: Global, shown: &[u8]) -> Result<Result<Vec<u8>, HistoryError>, Fail> {
    let (script, tape) = read(alloc, SCRIPT)?;
    match parse_history(alloc, &script.shape, shown) {
        Ok(history) => {
            let draws = DrawnDraws::new(&script.shape, tape);
            let mut out = Vec::new(alloc);
            report(alloc, &script, &draws, &history, &mut out)?;
            Ok(Ok(out))
        }
        Err(error) => Ok(Err(error)),
    }
}
