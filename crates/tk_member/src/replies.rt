ghost use Rattle.std.specs.Prelude.{◌≡◌, IfOk, replicate, None, option_map};
ghost use Rattle.tk_member.specs.Steps as steps;

use std::alloc::Global;
use tk_shape::{Bytes, Memory};

/// No reply of any server.
pub(crate) fn no_replies(alloc: Global, servers: u32) -> Result<Vec<Option<Bytes>>, Memory>
    ensures { IfOk result (λ v. v.items ≡ replicate servers None) }
{
    let mut replies = Vec::new(alloc);
    'servers: for server in 0..servers {
        replies.push(None)?;
    }
    Ok(replies)
}

/// The replies of all servers, if all are there.
pub(crate) fn all_of(alloc: Global, replies: &[Option<Bytes>]) -> Result<Option<Vec<Bytes>>, Memory>
    ensures { IfOk result (λ all. option_map (λ v. v.items) all ≡ steps.all_of replies.now) }
{
    let mut all = Vec::new(alloc);
    'replies: for reply in replies {
        let Some(reply) = reply else {
            return Ok(None);
        };
        all.push(Bytes::from_slice(alloc, reply.as_slice())?)?;
    }
    Ok(Some(all))
}
