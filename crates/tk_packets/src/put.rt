ghost use Rattle.std.specs.Prelude.{◌≡◌, ℕ, ◌≤◌, take, IfOk, OnOk, OnErr, Err};
ghost use Rattle.tk_io.specs.Content.{Rose, gained};
ghost use Rattle.tk_packets.specs.Packets.{packets_bytes};

use crate::{Packet, PutError};
use std::alloc::Global;
use tk_io::{Sink, put_all};
use tk_shape::Memory;

/// Puts packets one after the other, in one piece where the sink takes it. After an error the sink has gained a front of
/// their bytes.
pub fn put_packets<K: Sink>(alloc: Global, sink: &mut K, packets: &[Packet]) -> Result<(), PutError>
    ensures ok { OnOk result (K.held sink.new ≡ gained (K.held sink.old) (packets_bytes packets.now)) }
    ensures err { OnErr result ((n : ℕ)
        × (K.held sink.new ≡ gained (K.held sink.old) (take n (packets_bytes packets.now)))) }
    ensures write { result ≡ Err PutError.Write → Rose (K.faults sink.old) (K.faults sink.new) }
    ensures counts { K.faults sink.old ≤ K.faults sink.new }
{
    let bytes = spelled(alloc, packets)?;
    if put_all(sink, bytes.as_slice()).is_err() {
        return Err(PutError::Write);
    }
    Ok(())
}

/// The bytes of packets one after the other.
fn spelled(alloc: Global, packets: &[Packet]) -> Result<Vec<u8>, Memory>
    ensures { IfOk result (λ v. v.items ≡ packets_bytes packets.now) }
{
    let mut out = Vec::new(alloc);
    'packets: for packet in packets {
        packet.spell(&mut out)?;
    }
    Ok(out)
}
