ghost use Rattle.std.specs.Prelude.{◌≡◌, ℕ, List, [], IfOk};
ghost use Rattle.tk_script.specs.Answer.{Agrees};
ghost use Rattle.tk_script.specs.Grammar.{lines_of};
ghost use Rattle.tk_script.specs.Reading.{Verdict, next_lines, to_end};
ghost use Rattle.tk_script.specs.Stands.{stands};

use crate::lines::is_end;
use crate::place::Place;
use crate::{Cause, ScriptError};
use std::alloc::Global;
use tk_shape::Memory;

/// What reads the lines of one kind, each after those before it.
pub(crate) trait LineKind {
    type Item: Drop;

    ghost reads: { Self → List Self.Item → List ℕ → Verdict Self.Item };

    /// What a line gives after those before it, or why it is refused.
    fn read(
        &self,
        alloc: Global,
        before: &[Self::Item],
        line: &[u8],
    ) -> Result<Result<Self::Item, Cause>, Memory>
        ensures { IfOk result (λ r. r ≡ reads self.now before.now line.now) };
}

/// What the next lines of a kind give, as many as are wanted, and the place after them.
pub(crate) fn counted<'a, K: LineKind>(
    alloc: Global,
    kind: &K,
    count: u32,
    start: Place<'a>,
) -> Result<(Vec<K::Item>, Place<'a>), ScriptError>
    ensures { Agrees (λ x. (x.0.items, stands x.1)) result
        (next_lines count (K.reads kind.now) [] (stands start.entry)) }
{
    let mut items = Vec::new(alloc);
    let mut here = start;
    'lines: for _ in 0..count {
        let (line, behind) = here.next()?;
        let item = match kind.read(alloc, items.as_slice(), line)? {
            Ok(item) => item,
            Err(cause) => return Err(here.refused(cause)),
        };
        items.push(item)?;
        here = behind;
    }
    Ok((items, here))
}

/// What the lines of a kind up to the line `end` give, and the place after it.
pub(crate) fn up_to_end<'a, K: LineKind>(
    alloc: Global,
    kind: &K,
    start: Place<'a>,
) -> Result<(Vec<K::Item>, Place<'a>), ScriptError>
    ensures { Agrees (λ x. (x.0.items, stands x.1)) result
        (to_end (K.reads kind.now) [] start.entry.line (lines_of start.entry.rest.now)) }
{
    let mut items = Vec::new(alloc);
    let mut here = start;
    'lines: loop {
        let (line, behind) = here.next()?;
        if is_end(line) {
            return Ok((items, behind));
        }
        let item = match kind.read(alloc, items.as_slice(), line)? {
            Ok(item) => item,
            Err(cause) => return Err(here.refused(cause)),
        };
        items.push(item)?;
        here = behind;
    }
}
