ghost use Rattle.std.specs.Prelude.{◌≡◌, ◌==◌, filter, IfOk};

use std::alloc::Global;
use tk_report::Sent;
use tk_shape::Memory;

/// The texts of a log among those that a client sends. They are listed once for all numbers of the log, since looking
/// for each of them among all that the client sends would take the square of their count.
pub(crate) fn texts_of<'a>(
    alloc: Global,
    sent: &[Sent<'a>],
    log: u32,
) -> Result<Vec<Sent<'a>>, Memory>
    ensures { IfOk result (λ texts. texts.items ≡ filter (λ y. y.log == log) sent.now) }
{
    let mut texts = Vec::new(alloc);
    for found in sent {
        if found.log == log {
            texts.push(Sent {
                turn: found.turn,
                log,
                number: found.number,
                text: found.text,
            })?;
        }
    }
    Ok(texts)
}
