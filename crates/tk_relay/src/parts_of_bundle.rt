ghost use Rattle.std.specs.Prelude.{◌≡◌, List, length, None, IfOk, IfErr, OnOk, MatchResult};
ghost use Rattle.tk_frames.specs.declared.fault.FrameError.TheVariants as fault;
ghost use Rattle.tk_frames.specs.Faults.{first_fault, IsRefusal};
ghost use Rattle.tk_relay.specs.declared.part.Part.{Part};
ghost use Rattle.tk_relay.specs.Bundles.{AreParts, bundle_frame, bundle_checks, bundle_len, parts_in};

use crate::bundles::bundle_len;
use crate::part_frames::part_of;
use crate::{Part, kind};
use std::alloc::Global;
use tk_frames::{FrameError, check_asked};
use tk_shape::{Memory, Shape};

/// The parts for all servers, in their order, that the bytes of a bundle spell, if they spell parts in range for the
/// shape. Other bytes are refused for their first fault; memory is taken only once none is found.
pub fn split(alloc: Global, shape: &Shape, bytes: &[u8]) -> Result<Vec<Part>, FrameError>
    ensures found { IfOk result (λ parts.
        AreParts shape.now parts.items × (bytes.now ≡ bundle_frame parts.items)) }
    ensures only { (parts : List Part) → AreParts shape.now parts → bytes.now ≡ bundle_frame parts
        → MatchResult result (λ found. found.items ≡ parts) (λ e. e ≡ fault.Memory) }
    ensures kept { OnOk result (first_fault (bundle_checks shape.now bytes.now) ≡ None) }
    ensures refused { IfErr result (IsRefusal (first_fault (bundle_checks shape.now bytes.now))) }
{
    check_asked(shape, bytes, bundle_len(shape), kind::BUNDLE)?;
    Ok(parts_of(alloc, shape, bytes)?)
}

/// The parts that stand in bytes of the right length.
fn parts_of(alloc: Global, shape: &Shape, bytes: &[u8]) -> Result<Vec<Part>, Memory>
    requires { length bytes.now ≡ bundle_len shape.now }
    ensures { IfOk result (λ parts. parts.items ≡ parts_in shape.now bytes.now) }
{
    let size = shape.vector_len() as usize;
    let mut parts = Vec::new(alloc);
    let mut rest = bytes.split_at(14).1;
    for _ in 0..shape.servers {
        let (vectors, others) = rest.split_at(2 * size);
        parts.push(part_of(alloc, bytes, vectors, size)?)?;
        rest = others;
    }
    Ok(parts)
}
