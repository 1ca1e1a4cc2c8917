ghost use Rattle.std.specs.Prelude.{◌≡◌, ◌+◌, ◌≤◌, ◌++◌, length, IfOk, OnErr, IfSome, IfNone, Err};
ghost use Rattle.tk_io.specs.Content.{Rose, before_taking, emptied};
ghost use Rattle.tk_frames.specs.Spelling.{be32};
ghost use Rattle.tk_frames.specs.Fields.{number_at};
ghost use Rattle.tk_packets.specs.Packets.{spelling, EndsWithin, ComesLong, TakesAtMost};

use crate::filling::fill;
use crate::{Packet, PacketError};
use std::alloc::Global;
use tk_frames::u32_at;
use tk_io::Source;
use tk_shape::Bytes;

/// The next packet of the source, of at most so many bytes; none where the source is at its end. Nothing is taken of a
/// packet that is longer but its peer and its length.
pub fn next_packet<S: Source>(
    alloc: Global,
    source: &mut S,
    most: u32,
) -> Result<Option<Packet>, PacketError>
    ensures found { IfOk result (λ o. S.left source.old ≡ before_taking (spelling o) (S.left source.new)) }
    ensures within { IfOk result (λ o. IfSome o (λ p. length p.bytes ≤ most)) }
    ensures end { IfOk result (λ o. IfNone o (S.left source.new ≡ emptied (S.left source.old))) }
    ensures cut { result ≡ Err PacketError.Cut → EndsWithin most (S.left source.old) (S.left source.new) }
    ensures long { result ≡ Err PacketError.Long → ComesLong most (S.left source.old) (S.left source.new) }
    ensures read { result ≡ Err PacketError.Read → Rose (S.faults source.old) (S.faults source.new) }
    ensures err { OnErr result (TakesAtMost (8 + most) (S.left source.old) (S.left source.new)) }
    ensures counts { S.faults source.old ≤ S.faults source.new }
{
    let mut head = [0u8; 8];
    let Ok(n) = fill(source, &mut head) else {
        return Err(PacketError::Read);
    };
    if n == 0 {
        return Ok(None);
    }
    if n < 8 {
        return Err(PacketError::Cut);
    }
    let (peer, length) = two_numbers(&head);
    if length > most {
        return Err(PacketError::Long);
    }
    let mut bytes = vec![in alloc; 0u8; length as usize]?;
    let Ok(n) = fill(source, bytes.as_mut_slice()) else {
        return Err(PacketError::Read);
    };
    if n < bytes.len() {
        return Err(PacketError::Cut);
    }
    Ok(Some(Packet::new(peer, Bytes::from_vec(bytes))))
}

/// The two numbers that eight bytes spell.
fn two_numbers(bytes: &[u8]) -> (u32, u32)
    requires { length bytes.now ≡ 8 }
    ensures spelled { be32 result.0 ++ be32 result.1 ≡ bytes.now }
    ensures second { result.1 ≡ number_at 4 bytes.now }
{
    (u32_at(bytes, 0), u32_at(bytes, 4))
}
