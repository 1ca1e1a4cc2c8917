ghost use Rattle.std.specs.Prelude.{IfOk};
ghost use Rattle.tk_batch.specs.Parts.{Joins};

use std::alloc::Global;
use tk_shape::{Bytes, Memory};

/// The answers to some of the vectors.
pub(crate) type Part = Result<Vec<Bytes>, Memory>;

/// All answers, if there was memory for every part.
pub(crate) fn joined(alloc: Global, parts: Vec<Part>) -> Result<Vec<Bytes>, Memory>
    ensures { IfOk result (λ all. Joins parts.items all.items) }
{
    let mut all = Vec::new(alloc);
    for part in parts {
        let mut part = part?;
        all.append(&mut part)?;
    }
    Ok(all)
}
