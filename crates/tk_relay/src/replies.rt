//! The replies that a client makes of the one reply that it gets.
ghost use Rattle.std.specs.Prelude.{◌≡◌, ◌++◌, map, IfOk, OnOk, OnErr};
ghost use Rattle.tk_shape.specs.Lengths.{width};
ghost use Rattle.tk_frames.specs.Spelling.{reply_frame};
ghost use Rattle.tk_relay.specs.Halves.{HasHalves};
ghost use Rattle.tk_relay.specs.Parts.{halves_of};
ghost use Rattle.tk_relay.specs.Replies.{reply_with, replies_from, unmasked, zero_halves};

use crate::halves::Halves;
use crate::{Pads, Part};
use std::alloc::Global;
use tk_frames::{ReplyFrame, encode_reply};
use tk_shape::{Bytes, Memory, Shape};

/// Appends a reply frame for each server, made of the joined replies of all: the first server's has the joined sums
/// without the pads, and those of the others have zeros. Where memory runs out nothing is appended.
pub fn replies_for(
    shape: &Shape,
    joined: &Part,
    pads: &Pads,
    out: &mut Vec<Bytes>,
) -> Result<(), Memory>
    requires one_shape { pads.now.shape ≡ shape.now }
    requires sized { HasHalves (width shape.now) (halves_of joined.now) }
    ensures ok { let replies = replies_from shape.now pads.now.pads joined.now in
        OnOk result (out.new.items ≡ out.old.items ++ map reply_frame replies) }
    ensures err { OnErr result (out.new.items ≡ out.old.items) }
{
    let alloc = *out.allocator();
    let sums = unmask(alloc, joined, pads)?;
    let mut replies = Vec::new(alloc);
    replies.push(frame_with(alloc, joined, sums)?)?;
    for _ in 1..shape.servers {
        let zeros = zeros(alloc, shape.width() as usize)?;
        replies.push(frame_with(alloc, joined, zeros)?)?;
    }
    out.append(&mut replies)?;
    Ok(())
}

/// The joined sums with all reply pads taken off.
fn unmask(alloc: Global, joined: &Part, pads: &Pads) -> Result<Halves, Memory>
    requires sized { HasHalves (width pads.now.shape) (halves_of joined.now) }
    ensures { IfOk result (λ sums. sums ≡ unmasked pads.now.shape pads.now.pads joined.now) }
{
    let mut sums = Halves::of(alloc, joined)?;
    for server in 2..pads.shape().servers + 1 {
        let (first, second) = pads.reply(server);
        sums.mix(first, second);
    }
    Ok(sums)
}

fn zeros(alloc: Global, size: usize) -> Result<Halves, Memory>
    ensures { IfOk result (λ x. x ≡ zero_halves size) }
{
    Ok(Halves {
        first: vec![in alloc; 0u8; size]?,
        second: vec![in alloc; 0u8; size]?,
    })
}

/// The frame of the reply to a part's read with these sums.
fn frame_with(alloc: Global, part: &Part, sums: Halves) -> Result<Bytes, Memory>
    ensures { IfOk result (λ bytes. bytes ≡ reply_frame (reply_with part.now sums)) }
{
    let reply = ReplyFrame {
        client: part.client,
        turn: part.turn,
        epoch: part.epoch,
        first: Bytes::from_vec(sums.first),
        second: Bytes::from_vec(sums.second),
    };
    let mut bytes = Vec::new(alloc);
    encode_reply(&reply, &mut bytes)?;
    Ok(Bytes::from_vec(bytes))
}
