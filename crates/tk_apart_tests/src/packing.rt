//! Packets and frames that tests are about.
use std::alloc::Global;
use std::test::Fail;
use tk_frames::{ReadFrame, Seeds, WriteFrame, encode_read, encode_write};
use tk_shape::{Bytes, Words};

/// Appends a packet.
pub fn push_packet(out: &mut Vec<u8>, peer: u32, bytes: &[u8]) -> Result<(), Fail> {
    let length = u32::try_from(bytes.len()).ok().ok_or("length")?;
    out.extend_from_slice(&peer.to_be_bytes())?;
    out.extend_from_slice(&length.to_be_bytes())?;
    out.extend_from_slice(bytes)?;
    Ok(())
}

/// Appends the packet that sets a server up: two servers, 8 buckets, two clients, two phases of one tick.
pub fn push_setup(out: &mut Vec<u8>, alloc: Global) -> Result<(), Fail> {
    let mut bytes = Vec::new(alloc);
    for number in [1u32, 2, 8, 4, 4, 24, 64, 1, 0, 2, 2, 1, 1] {
        bytes.extend_from_slice(&number.to_be_bytes())?;
    }
    push_packet(out, 0, bytes.as_slice())
}

/// The frame of a client's write of a turn.
pub fn write_bytes(alloc: Global, client: u32, turn: u32, bucket: u32) -> Result<Vec<u8>, Fail> {
    let frame = WriteFrame {
        client,
        turn,
        first: bucket,
        second: bucket,
        hits: Words::from_vec(vec![in alloc; 9]?),
        block: Bytes::from_vec(vec![in alloc; 7; 24]?),
    };
    let mut out = Vec::new(alloc);
    encode_write(&frame, &mut out)?;
    Ok(out)
}

/// The frame of a client's read of a turn, of the buckets that the vector chooses.
pub fn read_bytes(
    alloc: Global,
    client: u32,
    turn: u32,
    epoch: u32,
    vector: u8,
) -> Result<Vec<u8>, Fail> {
    let frame = ReadFrame {
        client,
        turn,
        epoch,
        first: Bytes::from_vec(vec![in alloc; vector]?),
        second: Bytes::from_vec(vec![in alloc; 0]?),
        seeds: Seeds::Plain,
    };
    let mut out = Vec::new(alloc);
    encode_read(&frame, &mut out)?;
    Ok(out)
}
