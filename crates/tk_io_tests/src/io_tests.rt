//! A source, a sink, taps and a gate, in memory and over the standard streams.
use std::test::Fail;
use tk_io::{
    Gate, MemSink, MemSource, MemTaps, NoTaps, OpenGate, ReadError, Sink, Source, StdSink,
    StdSource, Taps, put_all, read_all,
};

#[test]
fn reads_all_in_pieces(rt: HostRuntime) -> Result<(), Fail> {
    let alloc = rt.alloc();
    let mut source = MemSource::new(b"one text".to_vec(alloc)?, 3, Vec::new(alloc));
    assert!(rt; read_all(alloc, &mut source, 8)?.as_slice() == b"one text".as_slice());
    assert!(rt; source.left().len() == 0);
    let mut source = MemSource::new(b"one text".to_vec(alloc)?, 3, Vec::new(alloc));
    assert!(rt; read_all(alloc, &mut source, 7).err() == Some(ReadError::TooLong));
    let mut source = MemSource::new(b"one text".to_vec(alloc)?, 3, vec![in alloc; 2]?);
    assert!(rt; read_all(alloc, &mut source, 8).err() == Some(ReadError::Fault));
    assert!(rt; source.left() == b" text".as_slice());
    assert!(rt; source.faults() == 1);
    assert!(rt; read_all(alloc, &mut source, 8)?.as_slice() == b" text".as_slice());
    Ok(())
}

#[test]
fn a_source_fails_once(rt: HostRuntime) -> Result<(), Fail> {
    let alloc = rt.alloc();
    let mut source = MemSource::new(b"ab".to_vec(alloc)?, 8, vec![in alloc; 1]?);
    let mut buf = [0; 4];
    assert!(rt; source.take(&mut buf).is_err());
    assert!(rt; source.take(&mut buf).ok() == Some(2));
    assert!(rt; source.take(&mut buf).ok() == Some(0));
    Ok(())
}

#[test]
fn puts_all_in_pieces(rt: HostRuntime) -> Result<(), Fail> {
    let alloc = rt.alloc();
    let mut sink = MemSink::new(alloc, 3, vec![in alloc; 2]?);
    assert!(rt; put_all(&mut sink, b"one text").is_err());
    assert!(rt; sink.bytes() == b"one".as_slice());
    assert!(rt; sink.faults() == 1);
    assert!(rt; put_all(&mut sink, b" text").is_ok());
    assert!(rt; sink.bytes() == b"one text".as_slice());
    assert!(rt; sink.put(b"s").ok() == Some(1));
    Ok(())
}

#[test]
fn taps_keep_apart(rt: HostRuntime) -> Result<(), Fail> {
    let alloc = rt.alloc();
    let mut taps = MemTaps::new(alloc, 2, vec![in alloc; 3]?)?;
    assert!(rt; taps.put(1, b"a").is_ok());
    assert!(rt; taps.put(2, b"bc").is_ok());
    assert!(rt; taps.put(1, b"d").is_err());
    assert!(rt; taps.put(3, b"e").is_err());
    assert!(rt; taps.put(1, b"f").is_ok());
    assert!(rt; taps.bytes(1) == b"af".as_slice());
    assert!(rt; taps.bytes(2) == b"bc".as_slice());
    assert!(rt; taps.faults() == 2);
    assert!(rt; NoTaps.put(8, b"g").is_ok());
    OpenGate.at(&rt, 0, 1);
    Ok(())
}

#[test]
fn standard_input_gives_nothing_into_no_room(rt: HostRuntime) {
    let mut source = StdSource::new(rt.stdin());
    assert!(rt; source.take(&mut []).ok() == Some(0));
}

#[test]
fn standard_output_takes_a_piece(rt: HostRuntime) {
    let mut sink = StdSink::new(rt.stdout());
    assert!(rt; sink.put(b"\n").ok() == Some(1));
    assert!(rt; sink.put(b"").ok() == Some(0));
}
