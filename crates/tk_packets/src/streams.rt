use crate::{Line, Packet, PacketError, PutError, next_packet, put_packets};
use std::alloc::Global;
use tk_io::{Sink, Source};

/// A source and a sink as a line. They know nothing of one another, so that it doesn't tell what passed.
#[derive(Drop)]
pub struct Streams<S: Source, K: Sink> {
    pub source: S,
    pub sink: K,
}

impl<S: Source, K: Sink> Line for Streams<S, K> {
    ghost use Rattle.std.specs.Prelude.{None};

    ghost left = { λ s. S.left s.source };

    ghost gone = { λ s. record { bytes = K.held s.sink; past = None } };

    ghost read_faults = { λ s. S.faults s.source };

    ghost write_faults = { λ s. K.faults s.sink };

    fn take_packet(&mut self, alloc: Global, most: u32) -> Result<Option<Packet>, PacketError> {
        next_packet(alloc, &mut self.source, most)
    }

    fn put_packets(&mut self, alloc: Global, packets: &[Packet]) -> Result<(), PutError> {
        put_packets(alloc, &mut self.sink, packets)
    }
}
