//! What a member sends for packets, and what ends it.
use std::alloc::Global;
use std::test::Fail;
use tk_io::{MemSink, MemSource};
use tk_member::{Fault, take_part};
use tk_packets::{Streams, next_packet};
use tk_shape::Memory;

/// Two servers, eight buckets of four slots, blocks of 24 bytes; two clients, three phases of two ticks.
const HEAD: &[u8] = b"talek 1\nshape 2 8 4 4 24 64 1 2 2 3 2 1\n";

/// A packet from a peer.
#[derive(Clone, Copy)]
struct Sent<'a> {
    peer: u32,
    bytes: &'a [u8],
}

/// Appends a packet's spelling.
fn spell(sent: Sent<'_>, out: &mut Vec<u8>) -> Result<(), Memory> {
    let Ok(length) = u32::try_from(sent.bytes.len()) else {
        return Err(Memory);
    };
    out.extend_from_slice(&sent.peer.to_be_bytes())?;
    out.extend_from_slice(&length.to_be_bytes())?;
    out.extend_from_slice(sent.bytes)?;
    Ok(())
}

/// The packet that sets client `number` up, with these lines behind its keys, all of which are zeros.
fn setup(alloc: Global, number: u8, behind: &[u8]) -> Result<Vec<u8>, Memory> {
    let mut text = Vec::new(alloc);
    text.extend_from_slice(&[0, 0, 0, number])?;
    text.extend_from_slice(HEAD)?;
    text.extend_from_slice(b"keyed\nlog 0 1\nhandle ")?;
    text.extend_from_slice(&[b'0'; 208])?;
    for _client in 0..2 {
        text.extend_from_slice(b"\nseed ")?;
        text.extend_from_slice(&[b'0'; 64])?;
    }
    text.extend_from_slice(behind)?;
    let mut out = Vec::new(alloc);
    let bytes = text.as_slice();
    spell(Sent { peer: 0, bytes }, &mut out)?;
    Ok(out)
}

/// How a member ends that takes this input, and the bytes that it sends.
fn ended(alloc: Global, input: Vec<u8>) -> Result<(Option<Fault>, Vec<u8>), Memory> {
    let mut line = Streams {
        source: MemSource::new(input, 1000, Vec::new(alloc)),
        sink: MemSink::new(alloc, 1000, Vec::new(alloc)),
    };
    let fault = take_part(alloc, &mut line).err();
    Ok((fault, Vec::from_slice(alloc, line.sink.bytes())?))
}

/// The same behind client 0's setup, for these packets.
fn ended_by(alloc: Global, sent: &[Sent<'_>]) -> Result<(Option<Fault>, Vec<u8>), Memory> {
    let mut input = setup(alloc, 0, b"\nend\n")?;
    for packet in sent {
        spell(*packet, &mut input)?;
    }
    ended(alloc, input)
}

#[test]
fn a_tick_sends_a_write_and_a_read(rt: HostRuntime) -> Result<(), Fail> {
    let alloc = rt.alloc();
    let tick = Sent {
        peer: 0,
        bytes: b"T",
    };
    let (fault, sent) = ended_by(alloc, &[tick])?;
    assert!(rt; fault.is_none());
    let mut source = MemSource::new(sent, 1000, Vec::new(alloc));
    let mut packets = Vec::new(alloc);
    for _packet in 0..4 {
        packets.push(next_packet(alloc, &mut source, 100)?.ok_or("packet")?)?;
    }
    assert!(rt; source.left().len() == 0);
    let kinds = [(1, 1), (2, 1), (1, 2), (2, 2)];
    for (packet, (peer, kind)) in packets.iter().zip(&kinds) {
        assert!(rt;
            packet.peer() == *peer && packet.bytes().first() == Some(kind),
            "{peer} {kind}"
        );
    }
    let [first, second, ..] = packets.as_slice() else {
        return Err(Fail::from("packets"));
    };
    assert!(rt; first.bytes() == second.bytes());
    Ok(())
}

#[test]
fn a_packet_ends_it_by_name(rt: HostRuntime) -> Result<(), Fail> {
    let alloc = rt.alloc();
    let bad: [(u32, &[u8], Fault); 10] = [
        (0, b"", Fault::Peer),
        (0, b"X", Fault::Peer),
        (0, b"TT", Fault::Peer),
        (0, b"S\0\0\0", Fault::Peer),
        (0, b"G\0\0\0\x01", Fault::Older),
        (1, b"", Fault::Peer),
        (1, b"\x03\x01", Fault::Peer),
        (2, b"\x0b\x01\0\0\0\x01\0\0\0\0\0\0\0", Fault::Peer),
        (2, b"\x0c\x01\x01", Fault::Refused),
        (3, b"\x03\x01", Fault::Peer),
    ];
    for (peer, bytes, fault) in bad {
        let (found, sent) = ended_by(alloc, &[Sent { peer, bytes }])?;
        assert!(rt; found == Some(fault) && sent.is_empty(), "{peer}");
    }
    Ok(())
}

#[test]
fn marks_of_an_epoch_are_the_same(rt: HostRuntime) -> Result<(), Fail> {
    let alloc = rt.alloc();
    let none = b"\x0b\x01\0\0\0\x01\0\0\0\0\0\0\0\0";
    let some = b"\x0b\x01\0\0\0\x01\0\0\0\0\0\0\0\x01";
    let first = Sent {
        peer: 1,
        bytes: none,
    };
    let (fault, _) = ended_by(
        alloc,
        &[
            first,
            Sent {
                peer: 2,
                bytes: none,
            },
        ],
    )?;
    assert!(rt; fault.is_none());
    let (fault, _) = ended_by(
        alloc,
        &[
            first,
            Sent {
                peer: 2,
                bytes: some,
            },
        ],
    )?;
    assert!(rt; fault == Some(Fault::Differ));
    let (fault, _) = ended_by(alloc, &[first, first])?;
    assert!(rt; fault == Some(Fault::Peer));
    Ok(())
}

#[test]
fn a_text_that_may_not_be_said_is_refused(rt: HostRuntime) -> Result<(), Fail> {
    let alloc = rt.alloc();
    let texts: [(&[u8], u8); 3] = [
        (b"S\0\0\0\x01hi", 1),
        (b"S\0\0\0\0too long", 2),
        (b"S\0\0\0\0a\x07", 3),
    ];
    for (bytes, cause) in texts {
        let (fault, sent) = ended_by(alloc, &[Sent { peer: 0, bytes }])?;
        assert!(rt;
            fault.is_none() && sent.len() == 14 && sent[13] == cause,
            "{cause}"
        );
    }
    Ok(())
}

#[test]
fn the_first_packet_sets_it_up(rt: HostRuntime) -> Result<(), Fail> {
    let alloc = rt.alloc();
    let (fault, sent) = ended(alloc, Vec::new(alloc))?;
    assert!(rt; fault.is_none() && sent.is_empty());
    let other_client = setup(alloc, 2, b"\nend\n")?;
    let says = setup(alloc, 0, b"\nsay 1 1 0 hi\nend\n")?;
    let no_script = setup(alloc, 0, b"\n")?;
    for input in [other_client, says, no_script] {
        let (fault, _) = ended(alloc, input)?;
        assert!(rt; fault == Some(Fault::Setup));
    }
    let mut cut = setup(alloc, 0, b"\nend\n")?;
    cut.pop();
    assert!(rt; ended(alloc, cut)?.0 == Some(Fault::Cut));
    let mut long = setup(alloc, 0, b"\nend\n")?;
    long.extend_from_slice(&[0, 0, 0, 0, 0, 1, 0, 1])?;
    assert!(rt; ended(alloc, long)?.0 == Some(Fault::Long));
    Ok(())
}
