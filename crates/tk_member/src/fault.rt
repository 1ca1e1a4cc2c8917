ghost use Rattle.std.specs.Prelude.{◌≡◌};

use std::alloc::{AllocError, AllocFailed};
use tk_packets::{PacketError, PutError};
use tk_shape::Memory as WantOfMemory;

/// Why a member ends before its run is over.
#[derive(Clone, Copy, Debug, PartialEq, Eq)]
pub enum Fault {
    /// Want of memory, which may come at any time.
    Memory,
    /// The source failed.
    Read,
    /// The sink failed.
    Write,
    /// The source ends within a packet.
    Cut,
    /// A packet is longer than any may be.
    Long,
    /// The first packet isn't one that sets a member up.
    Setup,
    /// A packet is of no peer, or it is none that its peer may send.
    Peer,
    /// Two servers tell different marks of one epoch.
    Differ,
    /// A server refuses a frame, or its reply is refused.
    Refused,
    /// A server has more packets of this client than the member sent.
    Older,
}

impl Fault {
    ghost use Rattle.tk_member.specs.Faults.{fault_code, fault_line};

    /// What the process ends with.
    pub fn code(&self) -> u8
        ensures { result ≡ fault_code self.now }
    {
        match self {
            Fault::Memory => 1,
            Fault::Read => 4,
            Fault::Write => 5,
            Fault::Cut => 20,
            Fault::Long => 21,
            Fault::Setup => 22,
            Fault::Peer => 23,
            Fault::Differ => 24,
            Fault::Refused => 25,
            Fault::Older => 26,
        }
    }

    /// The line that tells it.
    pub fn line(&self) -> &'static [u8]
        ensures { result.now ≡ fault_line self.now }
    {
        match self {
            Fault::Memory => b"member: memory\n".as_slice(),
            Fault::Read => b"member: read\n".as_slice(),
            Fault::Write => b"member: write\n".as_slice(),
            Fault::Cut => b"member: cut\n".as_slice(),
            Fault::Long => b"member: long\n".as_slice(),
            Fault::Setup => b"member: setup\n".as_slice(),
            Fault::Peer => b"member: peer\n".as_slice(),
            Fault::Differ => b"member: differ\n".as_slice(),
            Fault::Refused => b"member: refused\n".as_slice(),
            Fault::Older => b"member: older\n".as_slice(),
        }
    }
}

impl From<WantOfMemory> for Fault {
    ghost use Rattle.tk_member.specs.declared.fault.Fault.TheVariants as fault;

    ghost from_gives = { λ _ f. f ≡ fault.Memory };

    fn from(_e: WantOfMemory) -> Fault {
        Fault::Memory
    }
}

impl From<AllocError> for Fault {
    ghost use Rattle.tk_member.specs.declared.fault.Fault.TheVariants as fault;

    ghost from_gives = { λ _ f. f ≡ fault.Memory };

    fn from(_e: AllocError) -> Fault {
        Fault::Memory
    }
}

impl<T: Drop> From<AllocFailed<T>> for Fault {
    ghost use Rattle.tk_member.specs.declared.fault.Fault.TheVariants as fault;

    ghost from_gives = { λ _ f. f ≡ fault.Memory };

    fn from(_e: AllocFailed<T>) -> Fault {
        Fault::Memory
    }
}

impl From<PacketError> for Fault {
    ghost use Rattle.tk_member.specs.Faults.{fault_of_packet};

    ghost from_gives = { λ e f. f ≡ fault_of_packet e };

    fn from(error: PacketError) -> Fault {
        match error {
            PacketError::Memory => Fault::Memory,
            PacketError::Read => Fault::Read,
            PacketError::Cut => Fault::Cut,
            PacketError::Long => Fault::Long,
        }
    }
}

impl From<PutError> for Fault {
    ghost use Rattle.tk_member.specs.Faults.{fault_of_put};

    ghost from_gives = { λ e f. f ≡ fault_of_put e };

    fn from(error: PutError) -> Fault {
        match error {
            PutError::Memory => Fault::Memory,
            PutError::Write => Fault::Write,
        }
    }
}
