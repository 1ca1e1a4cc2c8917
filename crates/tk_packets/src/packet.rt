use std::marker::Model;
use tk_shape::{Bytes, Memory};

/// What came from a peer, or goes to one. Peer 0 is the program's own host. Seen as the peer's number and the bytes, of
/// which there are fewer than 2^32.
#[derive(Debug, Drop)]
pub struct Packet {
    peer: u32,
    bytes: Bytes,
}

impl Model for Packet {
    ghost use Rattle.std.specs.Prelude.{◌<◌, ◌^◌, length};
    ghost use Rattle.tk_packets.specs.Packets.{PacketView, packet};

    ghost Value = { PacketView };

    ghost view = { λ p. packet p.peer p.bytes };

    ghost invariant = { λ p. length p.bytes < 2 ^ 32 };
}

impl Packet {
    ghost use Rattle.std.specs.Prelude.{◌≡◌, ◌<◌, ◌^◌, ◌++◌, length, OnOk};
    ghost use Rattle.tk_packets.specs.Packets.{packet, packet_bytes};

    pub fn new(peer: u32, bytes: Bytes) -> Packet
        requires { length bytes < 2 ^ 32 }
        ensures { result ≡ packet peer bytes }
    {
        Packet { peer, bytes }
    }

    pub fn peer(&self) -> u32
        ensures { result ≡ self.now.peer }
    {
        self.peer
    }

    pub fn bytes(&self) -> &[u8]
        ensures { result.now ≡ self.now.bytes }
    {
        self.bytes.as_slice()
    }

    pub fn into_bytes(self) -> Bytes
        ensures { result ≡ self.bytes }
    {
        self.bytes
    }

    /// Appends its spelling.
    pub(crate) fn spell(&self, out: &mut Vec<u8>) -> Result<(), Memory>
        ensures { OnOk result (out.new.items ≡ out.old.items ++ packet_bytes self.now) }
    {
        let bytes = self.bytes.as_slice();
        out.extend_from_slice(&self.peer.to_be_bytes())?;
        out.extend_from_slice(&(bytes.len() as u32).to_be_bytes())?;
        out.extend_from_slice(bytes)?;
        Ok(())
    }
}
