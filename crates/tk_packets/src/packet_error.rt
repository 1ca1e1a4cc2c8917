ghost use Rattle.std.specs.Prelude.{◌≡◌};

use std::alloc::AllocError;

/// Why no packet was taken.
#[derive(Clone, Copy, Debug, PartialEq, Eq)]
pub enum PacketError {
    Memory,
    /// The source failed.
    Read,
    /// The source ends within a packet.
    Cut,
    /// The packet has more bytes than are allowed.
    Long,
}

impl From<AllocError> for PacketError {
    ghost use Rattle.tk_packets.specs.declared.packet_error.PacketError.TheVariants as error;

    ghost from_gives = { λ _ e. e ≡ error.Memory };

    fn from(_e: AllocError) -> PacketError {
        PacketError::Memory
    }
}
