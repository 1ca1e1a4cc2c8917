//! What servers make of parts, and of their replies.
use crate::reads::{are_for, gather_all};
use std::alloc::Global;
use tk_answer::Blocks;
use tk_cluster::EpochSet;
use tk_relay::{
    Pads, Part, PartError, decode_masked_reply, decode_part, encode_masked_reply, encode_part,
    serve_part, split,
};
use tk_shape::Shape;

/// A part as the server gets it, by its frame.
fn passed_on(alloc: Global, shape: &Shape, part: &Part) -> Option<Part> {
    let mut frame = Vec::new(alloc);
    encode_part(part, &mut frame).ok()?;
    decode_part(alloc, shape, frame.as_slice()).ok()
}

/// How a server serves a part; nothing where the server, the part or the pads are of another shape.
pub(crate) fn served(
    alloc: Global,
    set: &EpochSet,
    server: u32,
    part: &Part,
    pads: &Pads,
) -> Option<Result<Part, PartError>> {
    let shape = set.shape();
    if server < 1 || server > shape.servers || !are_for(pads, shape) {
        return None;
    }
    let size = shape.vector_len() as usize;
    if part.first.as_slice().len() != size || part.second.as_slice().len() != size {
        return None;
    }
    Some(serve_part(alloc, set, server, part, pads))
}

/// What a server replies to its part, as server 1 gets it, by its frame.
fn replied(alloc: Global, set: &EpochSet, server: u32, part: &Part, pads: &Pads) -> Option<Part> {
    let part = passed_on(alloc, set.shape(), part)?;
    let reply = served(alloc, set, server, &part, pads)?.ok()?;
    let mut frame = Vec::new(alloc);
    encode_masked_reply(&reply, &mut frame).ok()?;
    decode_masked_reply(alloc, set.shape(), frame.as_slice()).ok()
}

/// What server 1 sends back to a bundle.
pub(crate) fn joined(alloc: Global, set: &EpochSet, bundle: &[u8], pads: &Pads) -> Option<Part> {
    let parts = split(alloc, set.shape(), bundle).ok()?;
    let mut replies = Vec::new(alloc);
    let mut server = 0u32;
    for part in parts.iter() {
        server = server.saturating_add(1);
        replies.push(replied(alloc, set, server, part, pads)?).ok()?;
    }
    gather_all(alloc, replies.as_slice())?.ok()
}

/// A server's block of a bucket.
pub(crate) fn block_of(set: &EpochSet, server: u32, bucket: u32) -> Option<&[u8]> {
    if server < 1 || server > set.servers() {
        return None;
    }
    let blocks = set.blocks(server);
    if bucket >= blocks.count() {
        return None;
    }
    blocks.run(bucket).get(..blocks.width() as usize)
}

/// XORs bytes into as many others.
pub(crate) fn mix(sum: &mut [u8], bytes: &[u8]) {
    for (a, b) in sum.iter_mut().zip(bytes.iter()) {
        *a ^= *b;
    }
}
