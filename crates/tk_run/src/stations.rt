//! The places at which the servers of a run of threads answer in a turn.
ghost use Rattle.std.specs.Prelude.{◌≡◌, length, map, IfOk};

use crate::kept::Kept;
use std::alloc::Global;
use tk_shape::{Bytes, Memory};

/// What a server replies to the reads of all clients, if there was memory.
pub(crate) type Replies = Result<Vec<Bytes>, Memory>;

/// A server's blocks in ranges, if it keeps any, and what it replies.
#[derive(Drop)]
pub(crate) struct Station {
    pub kept: Option<Kept>,
    pub replies: Replies,
}

/// A station for each of so many servers, with what was kept, as far as that goes.
pub(crate) fn stations_for(
    alloc: Global,
    servers: u32,
    kept: Vec<Option<Kept>>,
) -> Result<Vec<Station>, Memory>
    ensures { IfOk result (λ v. length v.items ≡ servers) }
{
    let mut stations = Vec::new(alloc);
    let mut rest = kept.into_iter();
    'servers: for _server in 0..servers {
        let kept = match rest.next() {
            Some(kept) => kept,
            None => None,
        };
        let replies = Err(Memory);
        stations.push(Station { kept, replies })?;
    }
    Ok(stations)
}

/// What they keep, and what they reply.
pub(crate) fn cleared(
    alloc: Global,
    stations: Vec<Station>,
) -> Result<(Vec<Option<Kept>>, Vec<Replies>), Memory>
    ensures { IfOk result (λ r. r.1.items ≡ map (λ s. s.replies) stations.items) }
{
    let mut all = Vec::new(alloc);
    let mut answers = Vec::new(alloc);
    'clearing: for station in stations {
        let Station { kept, replies } = station;
        all.push(kept)?;
        answers.push(replies)?;
    }
    Ok((all, answers))
}
