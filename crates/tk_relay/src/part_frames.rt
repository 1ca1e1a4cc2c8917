//! The two frames that have one part: what server 1 passes on, and what a server replies to that.
ghost use Rattle.std.specs.Prelude.{◌≡◌, ◌≤◌, ◌∷◌, ◌++◌, length, None, IfOk, IfErr, OnOk, OnErr};
ghost use Rattle.std.specs.List.{flat_map};
ghost use Rattle.tk_shape.specs.Lengths.{vector_len, width};
ghost use Rattle.tk_frames.specs.Spelling.{be32};
ghost use Rattle.tk_frames.specs.Faults.{first_fault, GivesUnlessMemory, IsRefusal};
ghost use Rattle.tk_relay.specs.declared.part.Part.{Part};
ghost use Rattle.tk_relay.specs.Halves.{halves_in};
ghost use Rattle.tk_relay.specs.Parts.{part_with, part_checks, frame_as, part_frame};
ghost use Rattle.tk_relay.specs.Parts.{masked_reply_frame, IsPart};
ghost use Rattle.tk_frames.specs.Fields.{number_at};

use crate::append::append;
use crate::{Part, kind};
use std::alloc::Global;
use tk_frames::{FrameError, check_asked, head_of, u32_at};
use tk_shape::{Bytes, Memory, Shape};

/// Appends the one spelling of what server 1 passes on to a server. Where memory runs out nothing is appended.
pub fn encode_part(part: &Part, out: &mut Vec<u8>) -> Result<(), Memory>
    ensures ok { OnOk result (out.new.items ≡ out.old.items ++ part_frame part.now) }
    ensures err { OnErr result (out.new.items ≡ out.old.items) }
{
    encode_as(kind::PART, part, out)
}

/// Appends the one spelling of what a server replies to that. Where memory runs out nothing is appended.
pub fn encode_masked_reply(part: &Part, out: &mut Vec<u8>) -> Result<(), Memory>
    ensures ok { OnOk result (out.new.items ≡ out.old.items ++ masked_reply_frame part.now) }
    ensures err { OnErr result (out.new.items ≡ out.old.items) }
{
    encode_as(kind::MASKED_REPLY, part, out)
}

fn encode_as(kind: u8, part: &Part, out: &mut Vec<u8>) -> Result<(), Memory>
    ensures ok { OnOk result (out.new.items ≡ out.old.items ++ frame_as kind part.now) }
    ensures err { OnErr result (out.new.items ≡ out.old.items) }
{
    let asker = [part.client, part.turn, part.epoch];
    encode_halves(
        kind,
        asker,
        part.first.as_slice(),
        part.second.as_slice(),
        out,
    )
}

/// Appends a frame with these halves.
fn encode_halves(
    kind: u8,
    asker: [u32; 3],
    first: &[u8],
    second: &[u8],
    out: &mut Vec<u8>,
) -> Result<(), Memory>
    ensures ok { OnOk result (out.new.items
        ≡ out.old.items ++ (kind ∷ 1 ∷ (flat_map be32 asker ++ (first.now ++ second.now)))) }
    ensures err { OnErr result (out.new.items ≡ out.old.items) }
{
    let halves = first.len().saturating_add(second.len());
    out.reserve(halves.saturating_add(14))?;
    append(out, &head_of(kind, asker));
    append(out, first);
    append(out, second);
    Ok(())
}

/// The part with two vectors that the bytes spell, if they spell one in range for the shape. Other bytes are refused for
/// their first fault; memory is taken only once none is found.
pub fn decode_part(alloc: Global, shape: &Shape, bytes: &[u8]) -> Result<Part, FrameError>
    ensures found { IfOk result (λ p.
        IsPart shape.now (vector_len shape.now) p × (bytes.now ≡ part_frame p)) }
    ensures only { (p : Part) → IsPart shape.now (vector_len shape.now) p → bytes.now ≡ part_frame p
        → GivesUnlessMemory result p }
    ensures kept { let checks = part_checks shape.now (vector_len shape.now) 9 bytes.now in
        OnOk result (first_fault checks ≡ None) }
    ensures refused { let checks = part_checks shape.now (vector_len shape.now) 9 bytes.now in
        IfErr result (IsRefusal (first_fault checks)) }
{
    decode_as(alloc, shape, bytes, kind::PART, shape.vector_len())
}

/// The same of the reply to it, with two sums.
pub fn decode_masked_reply(alloc: Global, shape: &Shape, bytes: &[u8]) -> Result<Part, FrameError>
    ensures found { IfOk result (λ p.
        IsPart shape.now (width shape.now) p × (bytes.now ≡ masked_reply_frame p)) }
    ensures only { (p : Part) → IsPart shape.now (width shape.now) p
        → bytes.now ≡ masked_reply_frame p → GivesUnlessMemory result p }
    ensures kept { let checks = part_checks shape.now (width shape.now) 10 bytes.now in
        OnOk result (first_fault checks ≡ None) }
    ensures refused { let checks = part_checks shape.now (width shape.now) 10 bytes.now in
        IfErr result (IsRefusal (first_fault checks)) }
{
    decode_as(alloc, shape, bytes, kind::MASKED_REPLY, shape.width())
}

/// The part of a kind with halves of so many bytes.
fn decode_as(
    alloc: Global,
    shape: &Shape,
    bytes: &[u8],
    kind: u8,
    size: u32,
) -> Result<Part, FrameError>
    requires { size ≤ 65536 }
    ensures found { IfOk result (λ p. IsPart shape.now size p × (bytes.now ≡ frame_as kind p)) }
    ensures only { (p : Part) → IsPart shape.now size p → bytes.now ≡ frame_as kind p
        → GivesUnlessMemory result p }
    ensures kept { OnOk result (first_fault (part_checks shape.now size kind bytes.now) ≡ None) }
    ensures refused { IfErr result
        (IsRefusal (first_fault (part_checks shape.now size kind bytes.now))) }
{
    check_asked(shape, bytes, 14 + 2 * size, kind)?;
    let (_, halves) = bytes.split_at(14);
    Ok(part_of(alloc, bytes, halves, size as usize)?)
}

/// The part of the read that the head of these bytes names, with these halves of so many bytes each.
pub(crate) fn part_of(
    alloc: Global,
    bytes: &[u8],
    halves: &[u8],
    size: usize,
) -> Result<Part, Memory>
    requires head { 14 ≤ length bytes.now }
    requires halves { size ≤ length halves.now }
    ensures { IfOk result (λ p. p
        ≡ part_with (number_at 2 bytes.now) (number_at 6 bytes.now) (number_at 10 bytes.now)
        (halves_in size halves.now)) }
{
    let (first, second) = halves.split_at(size);
    Ok(Part {
        client: u32_at(bytes, 2),
        turn: u32_at(bytes, 6),
        epoch: u32_at(bytes, 10),
        first: Bytes::from_slice(alloc, first)?,
        second: Bytes::from_slice(alloc, second)?,
    })
}
