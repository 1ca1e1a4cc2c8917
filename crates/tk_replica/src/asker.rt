//! Who asks, and how the sums become replies.
ghost use Rattle.std.specs.Prelude.{◌≡◌, ◌*◌, length, IfOk};
ghost use Rattle.tk_frames.specs.Spelling.{reply_frame};
ghost use Rattle.tk_replica.specs.Replies.{asker_of, asker_reply, frames_with};

use std::alloc::Global;
use tk_frames::{LentReply, ReadFrame, encode_lent_reply};
use tk_shape::{Bytes, Memory};

/// Who asks by a read, and over which epoch.
#[derive(Clone, Copy, Debug)]
pub struct Asker {
    client: u32,
    turn: u32,
    epoch: u32,
}

impl Asker {
    /// The asker of a read.
    pub fn of(read: &ReadFrame) -> Asker
        ensures { result ≡ asker_of read.now }
    {
        Asker {
            client: read.client,
            turn: read.turn,
            epoch: read.epoch,
        }
    }

    /// The reply frame with these sums.
    pub fn reply(&self, alloc: Global, first: &[u8], second: &[u8]) -> Result<Bytes, Memory>
        ensures { IfOk result
            (λ bytes. bytes ≡ reply_frame (asker_reply self.now first.now second.now)) }
    {
        let reply = LentReply {
            client: self.client,
            turn: self.turn,
            epoch: self.epoch,
            sums: (first, second),
        };
        let mut out = Vec::new(alloc);
        encode_lent_reply(&reply, &mut out)?;
        Ok(Bytes::from_vec(out))
    }
}

/// The reply frames to these askers, in their order, with two of the sums for each.
pub fn replies(alloc: Global, askers: &[Asker], sums: Vec<Bytes>) -> Result<Vec<Bytes>, Memory>
    requires two_for_each { length sums.items ≡ 2 * length askers.now }
    ensures { IfOk result (λ replies. replies.items ≡ frames_with askers.now sums.items) }
{
    replies_with(alloc, &mut Vec::new(alloc), askers, sums)
}

/// The same reply frames. The buffers of the sums are spare afterwards.
pub(crate) fn replies_with(
    alloc: Global,
    spare: &mut Vec<Vec<u8>>,
    askers: &[Asker],
    sums: Vec<Bytes>,
) -> Result<Vec<Bytes>, Memory>
    requires two_for_each { length sums.items ≡ 2 * length askers.now }
    ensures { IfOk result (λ replies. replies.items ≡ frames_with askers.now sums.items) }
{
    let mut replies = Vec::with_capacity(alloc, askers.len())?;
    let mut rest = sums.into_iter();
    let mut left = askers;
    'askers: while let Some((asker, behind)) = left.split_first() {
        // there are two sums for each, so that only memory may be wanting
        let Some(first) = rest.next() else {
            return Err(Memory);
        };
        let Some(second) = rest.next() else {
            return Err(Memory);
        };
        replies.push(asker.reply(alloc, first.as_slice(), second.as_slice())?)?;
        spare.push(first.into_vec())?;
        spare.push(second.into_vec())?;
        left = behind;
    }
    Ok(replies)
}
