//! Which parts are joined, and which are refused for their names.
use crate::reads::gather_all;
use std::alloc::Global;
use std::test::Fail;
use tk_relay::{GatherError, Part};
use tk_shape::Bytes;

/// Parts of so many servers, of client 0's read in turn 3 over epoch 2; those from a server on have other names. Of
/// their bytes one counts servers and one is fixed.
fn parts_of(alloc: Global, servers: u32, from: u32, others: [u32; 3]) -> Option<Vec<Part>> {
    let mut parts = Vec::new(alloc);
    for server in 1..servers.saturating_add(1) {
        let names = if server < from { [0, 3, 2] } else { others };
        let counted = server.to_le_bytes()[0];
        parts.push(part_of(alloc, names, counted)?).ok()?;
    }
    Some(parts)
}

fn part_of(alloc: Global, names: [u32; 3], counted: u8) -> Option<Part> {
    let [client, turn, epoch] = names;
    Some(Part {
        client,
        turn,
        epoch,
        first: Bytes::from_slice(alloc, &[counted, 1]).ok()?,
        second: Bytes::from_slice(alloc, &[16, counted]).ok()?,
    })
}

/// So many servers, what their parts join to for the first bucket, and for the second.
const JOINED: [(u32, [u8; 2], [u8; 2]); 3] = [
    (1, [1, 1], [16, 1]),
    (3, [0, 1], [16, 0]),
    (8, [8, 0], [0, 8]),
];

#[test]
fn parts_of_one_read_are_joined(rt: HostRuntime) -> Result<(), Fail> {
    let alloc = rt.alloc();
    for (servers, first, second) in JOINED {
        let parts = parts_of(alloc, servers, 9, [0; 3]).ok_or("parts")?;
        let gathered = gather_all(alloc, parts.as_slice()).ok_or("alike")?;
        let joined = gathered.ok().ok_or("joined")?;
        assert!(rt; joined.first.as_slice() == first.as_slice(), "{servers}");
        assert!(rt; joined.second.as_slice() == second.as_slice(), "{servers}");
        assert!(rt; joined.client == 0 && joined.turn == 3 && joined.epoch == 2);
    }
    Ok(())
}

/// The servers, the first whose part names another read, what it and those after it name, and the number wanted and got:
/// the client's, else the turn's, else the epoch's.
const OTHERS: [(u32, u32, [u32; 3], u32, u32); 6] = [
    (2, 2, [1, 3, 2], 0, 1),
    (2, 2, [0, 1, 2], 3, 1),
    (2, 2, [0, 3, 1], 2, 1),
    (8, 8, [0, 3, 4], 2, 4),
    (8, 3, [0, 0, 0], 3, 0),
    (3, 2, [1, 1, 1], 0, 1),
];

#[test]
fn parts_of_another_read_are_refused(rt: HostRuntime) -> Result<(), Fail> {
    let alloc = rt.alloc();
    for (servers, server, names, want, got) in OTHERS {
        let parts = parts_of(alloc, servers, server, names).ok_or("parts")?;
        let gathered = gather_all(alloc, parts.as_slice()).ok_or("alike")?;
        let refusal = GatherError::Named { server, want, got };
        assert!(rt; gathered.err() == Some(refusal), "{server}");
    }
    Ok(())
}
