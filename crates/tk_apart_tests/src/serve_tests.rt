use crate::packing::{push_packet, push_setup, read_bytes, write_bytes};
use std::alloc::Global;
use std::test::Fail;
use tk_io::{MemSink, MemSource};
use tk_packets::{Streams, next_packet};
use tk_serve::{Fault, serve};

/// Serves what a source gives in pieces of seven bytes; the calls of the source with these numbers fail.
fn served(alloc: Global, input: Vec<u8>, fails: Vec<u32>) -> (Result<(), Fault>, MemSink) {
    let mut line = Streams {
        source: MemSource::new(input, 7, fails),
        sink: MemSink::new(alloc, 9, Vec::new(alloc)),
    };
    let end = serve(alloc, &mut line);
    (end, line.sink)
}

/// The peers and the first bytes of packets.
fn heads(alloc: Global, bytes: &[u8]) -> Result<Vec<(u32, u8)>, Fail> {
    let mut source = MemSource::new(bytes.to_vec(alloc)?, 64, Vec::new(alloc));
    let mut heads = Vec::new(alloc);
    for _ in 0..64 {
        let Some(packet) = next_packet(alloc, &mut source, 1000).ok().ok_or("packet")? else {
            return Ok(heads);
        };
        heads.push((packet.peer(), packet.bytes().first().copied().unwrap_or(0)))?;
    }
    Ok(heads)
}

#[test]
fn epochs_and_replies_come_in_order(rt: HostRuntime) -> Result<(), Fail> {
    let alloc = rt.alloc();
    let mut input = Vec::new(alloc);
    push_setup(&mut input, alloc)?;
    for client in 0..2 {
        push_packet(
            &mut input,
            client + 1,
            read_bytes(alloc, client, 0, 0, 1)?.as_slice(),
        )?;
        push_packet(
            &mut input,
            client + 1,
            read_bytes(alloc, client, 1, 1, 2)?.as_slice(),
        )?;
    }
    for client in 0..2 {
        push_packet(
            &mut input,
            client + 1,
            write_bytes(alloc, client, 0, 1)?.as_slice(),
        )?;
        push_packet(
            &mut input,
            client + 1,
            write_bytes(alloc, client, 1, 1)?.as_slice(),
        )?;
    }
    let (end, sink) = served(alloc, input, Vec::new(alloc));
    assert!(rt; end.is_ok());
    assert!(rt;
        heads(alloc, sink.bytes())?.as_slice()
            == [
                (1, 3),
                (2, 3),
                (1, 11),
                (1, 3),
                (2, 11),
                (2, 3),
                (1, 11),
                (2, 11)
            ]
            .as_slice()
    );
    Ok(())
}

#[test]
fn frames_that_are_not_due_are_refused(rt: HostRuntime) -> Result<(), Fail> {
    let alloc = rt.alloc();
    let mut input = Vec::new(alloc);
    push_setup(&mut input, alloc)?;
    push_packet(&mut input, 1, b"")?;
    push_packet(&mut input, 1, b"\x01")?;
    push_packet(&mut input, 1, write_bytes(alloc, 1, 0, 1)?.as_slice())?;
    push_packet(&mut input, 1, write_bytes(alloc, 0, 1, 1)?.as_slice())?;
    push_packet(&mut input, 1, write_bytes(alloc, 0, 0, 8)?.as_slice())?;
    push_packet(&mut input, 1, read_bytes(alloc, 0, 0, 1, 1)?.as_slice())?;
    let (end, sink) = served(alloc, input, Vec::new(alloc));
    assert!(rt; end.is_ok());
    let mut causes = Vec::new(alloc);
    for packet in sink.bytes().chunks(11) {
        causes.push(packet.get(10).copied().unwrap_or(0))?;
    }
    assert!(rt; causes.as_slice() == [1, 2, 4, 5, 9, 6].as_slice());
    Ok(())
}

#[test]
fn each_fault_ends_the_run(rt: HostRuntime) -> Result<(), Fail> {
    let alloc = rt.alloc();
    let (end, _) = served(alloc, Vec::new(alloc), Vec::new(alloc));
    assert!(rt; end.is_ok());
    let mut input = Vec::new(alloc);
    push_packet(&mut input, 1, b"no setup")?;
    let (end, _) = served(alloc, input, Vec::new(alloc));
    assert!(rt; end.err() == Some(Fault::Setup));
    let mut input = Vec::new(alloc);
    push_setup(&mut input, alloc)?;
    let whole = input.as_slice().to_vec(alloc)?;
    let (end, _) = served(alloc, input, vec![in alloc; 3]?);
    assert!(rt; end.err() == Some(Fault::Read));
    let mut input = whole.as_slice().to_vec(alloc)?;
    push_packet(&mut input, 3, b"")?;
    let (end, _) = served(alloc, input, Vec::new(alloc));
    assert!(rt; end.err() == Some(Fault::Peer));
    let mut input = whole.as_slice().to_vec(alloc)?;
    push_packet(&mut input, 1, vec![in alloc; 0; 47]?.as_slice())?;
    let (end, _) = served(alloc, input, Vec::new(alloc));
    assert!(rt; end.err() == Some(Fault::Long));
    let mut input = whole;
    input.push(0)?;
    let (end, _) = served(alloc, input, Vec::new(alloc));
    assert!(rt; end.err() == Some(Fault::Cut));
    assert!(rt; Fault::Cut.code() == 20);
    assert!(rt; Fault::Cut.line() == b"serve: cut\n".as_slice());
    Ok(())
}

#[test]
fn a_sink_that_fails_ends_the_run(rt: HostRuntime) -> Result<(), Fail> {
    let alloc = rt.alloc();
    let mut input = Vec::new(alloc);
    push_setup(&mut input, alloc)?;
    push_packet(&mut input, 1, b"")?;
    let mut line = Streams {
        source: MemSource::new(input, 64, Vec::new(alloc)),
        sink: MemSink::new(alloc, 9, vec![in alloc; 2]?),
    };
    assert!(rt; serve(alloc, &mut line).err() == Some(Fault::Write));
    assert!(rt; line.sink.bytes().len() == 9);
    Ok(())
}
