ghost use Rattle.std.specs.Prelude.{◌≡◌};

use tk_packets::{PacketError, PutError};
use tk_shape::Memory as WantOfMemory;

/// Why a server ends before its run is over.
#[derive(Clone, Copy, Debug, PartialEq, Eq)]
pub enum Fault {
    Memory,
    /// The source failed.
    Read,
    /// The sink failed.
    Write,
    /// The source ends within a packet.
    Cut,
    /// A packet is longer than any frame that a client sends.
    Long,
    /// The first packet isn't one that sets the server up.
    Setup,
    /// A packet is of a peer that there is not.
    Peer,
}

impl Fault {
    ghost use Rattle.tk_serve.specs.Faults.{fault_code, fault_line};

    /// What the process ends with.
    pub fn code(&self) -> u8
        ensures { result ≡ fault_code self.now }
    {
        match self {
            Fault::Memory => 1,
            Fault::Read => 4,
            Fault::Write => 5,
            Fault::Cut => 20,
            Fault::Long => 21,
            Fault::Setup => 22,
            Fault::Peer => 23,
        }
    }

    /// The line that tells it.
    pub fn line(&self) -> &'static [u8]
        ensures { result.now ≡ fault_line self.now }
    {
        match self {
            Fault::Memory => b"serve: memory\n".as_slice(),
            Fault::Read => b"serve: read\n".as_slice(),
            Fault::Write => b"serve: write\n".as_slice(),
            Fault::Cut => b"serve: cut\n".as_slice(),
            Fault::Long => b"serve: long\n".as_slice(),
            Fault::Setup => b"serve: setup\n".as_slice(),
            Fault::Peer => b"serve: peer\n".as_slice(),
        }
    }
}

impl From<WantOfMemory> for Fault {
    ghost use Rattle.tk_serve.specs.declared.fault.Fault.TheVariants as fault;

    ghost from_gives = { λ _ f. f ≡ fault.Memory };

    fn from(_e: WantOfMemory) -> Fault {
        Fault::Memory
    }
}

impl From<PacketError> for Fault {
    ghost use Rattle.tk_serve.specs.Faults.{fault_of_packet};

    ghost from_gives = { λ e f. f ≡ fault_of_packet e };

    fn from(error: PacketError) -> Fault {
        match error {
            PacketError::Memory => Fault::Memory,
            PacketError::Read => Fault::Read,
            PacketError::Cut => Fault::Cut,
            PacketError::Long => Fault::Long,
        }
    }
}

impl From<PutError> for Fault {
    ghost use Rattle.tk_serve.specs.Faults.{fault_of_put};

    ghost from_gives = { λ e f. f ≡ fault_of_put e };

    fn from(error: PutError) -> Fault {
        match error {
            PutError::Memory => Fault::Memory,
            PutError::Write => Fault::Write,
        }
    }
}
