//! What the tests share: shapes, the frames of a read, pads, and the calls in between.
ghost use Rattle.std.specs.Prelude.{◌≡◌, length, IfOk, IsTrue};
ghost use Rattle.tk_shape.specs.Lengths.{vector_len};
ghost use Rattle.tk_relay.specs.Bundles.{AreOneRead};
ghost use Rattle.tk_relay.specs.Serving.{AreOfOneRead};

use std::alloc::Global;
use tk_frames::{ReadFrame, Seeds};
use tk_relay::{GatherError, Pads, Part, bundle, gather, replies_for};
use tk_shape::{Bytes, Memory, Shape};

/// So many servers and buckets of four slots, and two clients in two phases of a tick, in a format.
pub(crate) fn shape_of(format: u32, servers: u32, buckets: u32) -> Option<Shape> {
    if format < 1 || format > 2 {
        return None;
    }
    Shape::of(format, [servers, buckets, 4, 4, 24, 64, 1, 0, 2, 2, 1, 1]).ok()
}

/// The frames of a read of client 0 in turn 0: each server's two vectors have one byte over and over. Nothing where there
/// aren't vectors for just the servers.
pub(crate) fn frames_of(
    alloc: Global,
    shape: &Shape,
    epoch: u32,
    vectors: &[[u8; 2]],
) -> Result<Vec<ReadFrame>, Memory>
    ensures { IfOk result (λ frames. AreOneRead shape.now frames.items) }
{
    if vectors.len() != shape.servers as usize {
        return Err(Memory);
    }
    let mut frames = Vec::new(alloc);
    for vector in vectors {
        frames.push(frame_of(alloc, shape, epoch, vector)?)?;
    }
    Ok(frames)
}

/// One of them.
fn frame_of(alloc: Global, shape: &Shape, epoch: u32, vector: &[u8; 2]) -> Result<ReadFrame, Memory>
    ensures client { IfOk result (λ r. r.client ≡ 0) }
    ensures turn { IfOk result (λ r. r.turn ≡ 0) }
    ensures epoch { IfOk result (λ r. r.epoch ≡ epoch) }
    ensures first { IfOk result (λ r. length r.first ≡ vector_len shape.now) }
    ensures second { IfOk result (λ r. length r.second ≡ vector_len shape.now) }
{
    let size = shape.vector_len() as usize;
    Ok(ReadFrame {
        client: 0,
        turn: 0,
        epoch,
        first: Bytes::from_vec(vec![in alloc; vector[0]; size]?),
        second: Bytes::from_vec(vec![in alloc; vector[1]; size]?),
        seeds: Seeds::Plain,
    })
}

/// Pads whose bytes begin so and go on with one byte.
pub(crate) fn pads_of(alloc: Global, shape: &Shape, front: &[u8], rest: u8) -> Option<Pads> {
    let mut bytes = Vec::from_slice(alloc, front).ok()?;
    bytes.resize(pads_len(shape), rest).ok()?;
    Pads::from_bytes(shape, bytes).ok()
}

/// The bytes of the pads of a shape.
pub(crate) fn pads_len(shape: &Shape) -> usize {
    let each = 2 * (shape.vector_len() as usize + shape.width() as usize);
    (shape.servers as usize - 1) * each
}

/// Whether pads are for a shape.
pub(crate) fn are_for(pads: &Pads, shape: &Shape) -> bool
    ensures { IsTrue result → pads.now.shape ≡ shape.now }
{
    *pads.shape() == *shape
}

/// The bundle of a read; nothing where the pads are of another shape.
pub(crate) fn bundled(
    alloc: Global,
    shape: &Shape,
    epoch: u32,
    vectors: &[[u8; 2]],
    pads: &Pads,
) -> Option<Vec<u8>> {
    if !are_for(pads, shape) {
        return None;
    }
    let frames = frames_of(alloc, shape, epoch, vectors).ok()?;
    let mut out = Vec::new(alloc);
    bundle(shape, frames.as_slice(), pads, &mut out).ok()?;
    Some(out)
}

/// Whether all parts have as many bytes for either bucket as the first.
fn are_alike(parts: &[Part]) -> bool
    ensures { IsTrue result → AreOfOneRead parts.now }
{
    for part in parts {
        let (first, second) = (&parts[0].first, &parts[0].second);
        if part.first.as_slice().len() != first.as_slice().len() {
            return false;
        }
        if part.second.as_slice().len() != second.as_slice().len() {
            return false;
        }
    }
    true
}

/// The parts joined; nothing where they can't be by their lengths or their number.
pub(crate) fn gather_all(alloc: Global, parts: &[Part]) -> Option<Result<Part, GatherError>> {
    if parts.is_empty() || parts.len() > 8 || !are_alike(parts) {
        return None;
    }
    Some(gather(alloc, parts))
}

/// The reply frames that a client makes of the one reply; nothing where it or the pads are of another shape.
pub(crate) fn unmasked(
    alloc: Global,
    shape: &Shape,
    one: &Part,
    pads: &Pads,
) -> Option<Vec<Bytes>> {
    let width = shape.width() as usize;
    if !are_for(pads, shape) {
        return None;
    }
    if one.first.as_slice().len() != width || one.second.as_slice().len() != width {
        return None;
    }
    let mut frames = Vec::new(alloc);
    replies_for(shape, one, pads, &mut frames).ok()?;
    Some(frames)
}
