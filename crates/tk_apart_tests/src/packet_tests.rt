//! Packets over a source and a sink, and the frames that only a group apart has.
use std::test::Fail;
use tk_bloom::Window;
use tk_io::{MemSink, MemSource};
use tk_packets::{
    EpochFrame, Packet, PacketError, PutError, decode_epoch, decode_refused, encode_epoch,
    encode_refused, marks_of, next_packet, put_packets,
};
use tk_shape::{Bytes, Shape};

#[test]
fn packets_come_as_they_went(rt: HostRuntime) -> Result<(), Fail> {
    let alloc = rt.alloc();
    let mut sink = MemSink::new(alloc, 5, vec![in alloc; 5]?);
    let packets = vec![in alloc;
        Packet::new(7, Bytes::from_slice(alloc, b"hi")?),
        Packet::new(0, Bytes::from_slice(alloc, b"")?),
    ]?;
    assert!(rt; put_packets(alloc, &mut sink, packets.as_slice()).is_ok());
    assert!(rt;
        sink.bytes() == [0, 0, 0, 7, 0, 0, 0, 2, 104, 105, 0, 0, 0, 0, 0, 0, 0, 0].as_slice()
    );
    let bytes = sink.bytes().to_vec(alloc)?;
    assert!(rt; put_packets(alloc, &mut sink, packets.as_slice()).err() == Some(PutError::Write));
    let mut source = MemSource::new(bytes, 3, Vec::new(alloc));
    let first = next_packet(alloc, &mut source, 2)
        .ok()
        .flatten()
        .ok_or("first")?;
    assert!(rt; first.peer() == 7);
    assert!(rt; first.into_bytes().as_slice() == b"hi".as_slice());
    let second = next_packet(alloc, &mut source, 2)
        .ok()
        .flatten()
        .ok_or("second")?;
    assert!(rt; second.peer() == 0);
    assert!(rt; second.bytes().len() == 0);
    let third = next_packet(alloc, &mut source, 2).ok().ok_or("third")?;
    assert!(rt; third.is_none());
    Ok(())
}

#[test]
fn cut_and_long_packets_are_told(rt: HostRuntime) -> Result<(), Fail> {
    let alloc = rt.alloc();
    let bytes = [0, 0, 0, 7, 0, 0, 0, 2, 104];
    let mut source = MemSource::new(Vec::from_slice(alloc, &bytes)?, 9, Vec::new(alloc));
    assert!(rt; next_packet(alloc, &mut source, 1).err() == Some(PacketError::Long));
    assert!(rt; source.left() == b"h".as_slice());
    let mut source = MemSource::new(Vec::from_slice(alloc, &bytes)?, 9, Vec::new(alloc));
    assert!(rt; next_packet(alloc, &mut source, 2).err() == Some(PacketError::Cut));
    let mut source = MemSource::new(Vec::from_slice(alloc, &bytes)?, 9, vec![in alloc; 2]?);
    assert!(rt; next_packet(alloc, &mut source, 2).err() == Some(PacketError::Read));
    Ok(())
}

#[test]
fn an_epoch_is_told_with_its_marks(rt: HostRuntime) -> Result<(), Fail> {
    let alloc = rt.alloc();
    let shape = Shape::new([2, 8, 4, 4, 24, 64, 2, 0, 2, 2, 1, 1])
        .ok()
        .ok_or("shape")?;
    let mut window = Window::open(alloc, 64, 2, 4)?;
    window.push(&[9, 63]);
    let marks = marks_of(alloc, &shape, &window.filter(alloc)?)?;
    assert!(rt; marks.as_slice() == [0, 2, 0, 0, 0, 0, 0, 128].as_slice());
    let mut out = Vec::new(alloc);
    encode_epoch(&EpochFrame { epoch: 2, marks }, &mut out)?;
    assert!(rt; out.as_slice() == [11, 1, 0, 0, 0, 2, 0, 2, 0, 0, 0, 0, 0, 128].as_slice());
    let frame = decode_epoch(alloc, &shape, out.as_slice())?.ok_or("frame")?;
    assert!(rt; frame.epoch == 2);
    assert!(rt; frame.marks.as_slice() == &out[6..]);
    assert!(rt; decode_epoch(alloc, &shape, &out[..13])?.is_none());
    out[5] = 3;
    assert!(rt; decode_epoch(alloc, &shape, out.as_slice())?.is_none());
    Ok(())
}

#[test]
fn a_refusal_is_told_by_its_cause(rt: HostRuntime) -> Result<(), Fail> {
    let mut out = Vec::new(rt.alloc());
    encode_refused(4, &mut out)?;
    assert!(rt; out.as_slice() == [12, 1, 4].as_slice());
    assert!(rt; decode_refused(out.as_slice()) == Some(4));
    assert!(rt; decode_refused(&out[..2]) == None);
    Ok(())
}
