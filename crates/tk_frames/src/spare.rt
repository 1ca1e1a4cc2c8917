//! Bytes in buffers that are spare. What a spare buffer holds is of no account.
ghost use Rattle.std.specs.Prelude.{◌≡◌, length, IfOk};

use std::alloc::Global;
use tk_shape::{Bytes, Memory};

/// Buffers that reads and their answers lay in, for those to come. They are kept by what they were for, so that their
/// lengths are those that are wanted.
#[derive(Debug, Drop)]
pub struct Spare {
    pub seeds: Vec<Vec<u8>>,
    pub vectors: Vec<Vec<u8>>,
    pub sums: Vec<Vec<u8>>,
}

impl Spare {
    pub fn new(alloc: Global) -> Spare {
        Spare {
            seeds: Vec::new(alloc),
            vectors: Vec::new(alloc),
            sums: Vec::new(alloc),
        }
    }
}

/// Bytes, in a spare buffer if there is one.
pub(crate) fn copied(alloc: Global, spare: &mut Vec<Vec<u8>>, bytes: &[u8]) -> Result<Bytes, Memory>
    ensures { IfOk result (λ copy. copy ≡ bytes.now) }
{
    let Some(mut buffer) = spare.pop() else {
        return Bytes::from_slice(alloc, bytes);
    };
    buffer.clear();
    buffer.extend_from_slice(bytes)?;
    Ok(Bytes::from_vec(buffer))
}

/// So many bytes, whichever, in a spare buffer if there is one.
pub fn sized(alloc: Global, spare: &mut Vec<Vec<u8>>, size: usize) -> Result<Vec<u8>, Memory>
    ensures { IfOk result (λ buffer. length buffer.items ≡ size) }
{
    let Some(mut buffer) = spare.pop() else {
        return Ok(vec![in alloc; 0u8; size]?);
    };
    buffer.resize(size, 0)?;
    Ok(buffer)
}
