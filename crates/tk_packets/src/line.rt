ghost use Rattle.std.specs.Prelude.{◌≡◌, ℕ, ◌+◌, ◌≤◌, List, length, Option, IfOk, OnOk, OnErr, IfSome, IfNone, Err};
ghost use Rattle.tk_io.specs.Content.{Rose, before_taking, emptied};
ghost use Rattle.tk_packets.specs.Packets.{spelling, EndsWithin, ComesLong, TakesAtMost};
ghost use Rattle.tk_packets.specs.Lines.{Gone, after_taking, HasPut, HasPutFront};

use crate::{Packet, PacketError, PutError};
use std::alloc::Global;

/// What packets come and go over. All that passed stands in one list, in order, which these two calls alone make
/// longer: so a program's clauses can say what it puts before it takes the next packet.
pub trait Line {
    /// The bytes that are left to take, where the line tells them.
    ghost left: { Self → Option (List ℕ) };

    /// The bytes that were put, and the packets that passed, where the line tells them.
    ghost gone: { Self → Gone };

    /// How often taking failed; it stands still at 2^64 - 1.
    ghost read_faults: { Self → ℕ };

    /// How often putting failed; it stands still at 2^64 - 1.
    ghost write_faults: { Self → ℕ };

    /// Takes the next packet, of at most so many bytes; none where nothing is left. Nothing is taken of a packet that is
    /// longer but its peer and its length.
    fn take_packet(&mut self, alloc: Global, most: u32) -> Result<Option<Packet>, PacketError>
        ensures found { IfOk result (λ o. left self.old ≡ before_taking (spelling o) (left self.new)) }
        ensures within { IfOk result (λ o. IfSome o (λ p. length p.bytes ≤ most)) }
        ensures end { IfOk result (λ o. IfNone o (left self.new ≡ emptied (left self.old))) }
        ensures cut { result ≡ Err PacketError.Cut → EndsWithin most (left self.old) (left self.new) }
        ensures long { result ≡ Err PacketError.Long → ComesLong most (left self.old) (left self.new) }
        ensures read { result ≡ Err PacketError.Read → Rose (read_faults self.old) (read_faults self.new) }
        ensures err { OnErr result (TakesAtMost (8 + most) (left self.old) (left self.new)) }
        ensures counts { read_faults self.old ≤ read_faults self.new }
        ensures took { IfOk result (λ o. gone self.new ≡ after_taking o (gone self.old)) }
        ensures none { OnErr result (gone self.new ≡ gone self.old) }
        ensures writes { write_faults self.new ≡ write_faults self.old };

    /// Puts packets one after the other. After an error a front of them was put.
    fn put_packets(&mut self, alloc: Global, packets: &[Packet]) -> Result<(), PutError>
        ensures ok { OnOk result (HasPut packets.now (gone self.old) (gone self.new)) }
        ensures err { OnErr result (HasPutFront packets.now (gone self.old) (gone self.new)) }
        ensures write { result ≡ Err PutError.Write → Rose (write_faults self.old) (write_faults self.new) }
        ensures counts { write_faults self.old ≤ write_faults self.new }
        ensures same { left self.new ≡ left self.old }
        ensures reads { read_faults self.new ≡ read_faults self.old };
}
