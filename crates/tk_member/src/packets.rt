ghost use Rattle.std.specs.Prelude.{◌≡◌, ◌++◌, ◌<◌, ◌^◌, IfOk, OnOk, length, replicate};
ghost use Rattle.tk_packets.specs.Packets.{packet};
ghost use Rattle.tk_member.specs.Acting.{packets_from};

use std::alloc::Global;
use tk_packets::Packet;
use tk_shape::{Bytes, Memory};

/// A packet for a peer. One with more bytes than 32 bits can count is refused as if memory had run
/// out.
pub(crate) fn packet_to(peer: u32, bytes: Bytes) -> Result<Packet, Memory>
    ensures { IfOk result (λ p. p ≡ packet peer bytes) }
{
    if bytes.as_slice().len() > u32::MAX as usize {
        return Err(Memory);
    }
    Ok(Packet::new(peer, bytes))
}

/// Adds a packet with this frame to each server.
pub(crate) fn push_to_each(
    alloc: Global,
    servers: u32,
    frame: &[u8],
    out: &mut Vec<Packet>,
) -> Result<(), Memory>
    requires { servers < 2 ^ 16 }
    ensures { OnOk result (out.new.items ≡ out.old.items ++ packets_from 1 (replicate servers frame.now)) }
{
    'servers: for server in 0..servers {
        let bytes = Bytes::from_slice(alloc, frame)?;
        out.push(packet_to(server + 1, bytes)?)?;
    }
    Ok(())
}

/// Adds a packet with its own frame to each server.
pub(crate) fn push_frames(
    alloc: Global,
    frames: &[Bytes],
    out: &mut Vec<Packet>,
) -> Result<(), Memory>
    requires { length frames.now < 2 ^ 16 }
    ensures { OnOk result (out.new.items ≡ out.old.items ++ packets_from 1 frames.now) }
{
    let mut peer = 1;
    'frames: for frame in frames {
        let bytes = Bytes::from_slice(alloc, frame.as_slice())?;
        out.push(packet_to(peer, bytes)?)?;
        peer += 1;
    }
    Ok(())
}
