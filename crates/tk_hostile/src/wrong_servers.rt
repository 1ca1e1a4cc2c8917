ghost use Rattle.std.specs.Prelude.{◌≡◌, ◌≤◌, map, IfOk, OnOk};
ghost use Rattle.std.specs.List.{AllByRecursion};
ghost use Rattle.tk_frames.specs.Ranges.{IsRead, IsReply};
ghost use Rattle.tk_frames.specs.Spelling.{reply_frame};
ghost use Rattle.tk_hostile.specs.Choice.{own_sums, reply_with};
ghost use Rattle.tk_hostile.specs.Given.{AreSums};
ghost use Rattle.tk_hostile.specs.Walks.{IsLeft, ForItsWrites, replies_made, sums_made};

use crate::replies::Replies;
use crate::sums::Sums;
use std::alloc::Global;
use tk_answer::answer;
use tk_frames::{ReadFrame, ReplyFrame, encode_reply};
use tk_report::Marked;
use tk_shape::{Bytes, Memory};

/// The servers at a client's read: the hidden one, which replies over what lies open to the read,
/// and all others, which reply with sums that are chosen beforehand.
#[derive(Drop)]
pub(crate) struct Servers<'a> {
    pub replies: &'a Replies,
    pub hidden: u32,
    pub left: &'a Marked,
}

impl<'a> Servers<'a> {
    /// The replies of all servers to a read, in their order, where the hidden one gets this frame.
    pub(crate) fn replies(&self, alloc: Global, asked: &ReadFrame) -> Result<Vec<Bytes>, Memory>
        requires left { IsLeft self.now.replies.now.shape self.now.left.now }
        requires asked { IsRead self.now.replies.now.shape asked.now }
        ensures replies { ForItsWrites self.now (λ R. IfOk result (λ replies. replies.items
            ≡ map reply_frame (replies_made self.now R asked.now))) }
        ensures in_range { ForItsWrites self.now (λ R. OnOk result
            (AllByRecursion (IsReply self.now.replies.now.shape)
            (replies_made self.now R asked.now))) }
    {
        let mut replies = Vec::new(alloc);
        for server in 1..self.replies.shape().servers + 1 {
            let sums = self.sums(alloc, asked, server)?;
            replies.push(frame_of(alloc, asked, sums)?)?;
        }
        Ok(replies)
    }

    /// The sums with which a server replies.
    fn sums(&self, alloc: Global, asked: &ReadFrame, server: u32) -> Result<Sums, Memory>
        requires left { IsLeft self.now.replies.now.shape self.now.left.now }
        requires asked { IsRead self.now.replies.now.shape asked.now }
        requires low { 1 ≤ server }
        requires high { server ≤ self.now.replies.now.shape.servers }
        ensures sums { ForItsWrites self.now (λ R. IfOk result (λ sums.
            sums ≡ sums_made self.now R asked.now server)) }
        ensures sized { IfOk result (AreSums self.now.replies.now.shape) }
    {
        if server == self.hidden {
            return self.own_sums(alloc, asked);
        }
        self.replies.copied(alloc, asked.turn, asked.client, server)
    }

    /// The sums with which the hidden server replies.
    fn own_sums(&self, alloc: Global, asked: &ReadFrame) -> Result<Sums, Memory>
        requires left { IsLeft self.now.replies.now.shape self.now.left.now }
        requires asked { IsRead self.now.replies.now.shape asked.now }
        ensures sums { ForItsWrites self.now (λ R. IfOk result (λ sums.
            sums ≡ own_sums self.now.replies.now.shape R asked.now)) }
        ensures sized { IfOk result (AreSums self.now.replies.now.shape) }
    {
        let blocks = self.left.blocks();
        let width = self.replies.shape().width() as usize;
        let mut first = vec![in alloc; 0u8; width]?;
        let mut second = vec![in alloc; 0u8; width]?;
        answer(blocks, asked.first.as_slice(), first.as_mut_slice());
        answer(blocks, asked.second.as_slice(), second.as_mut_slice());
        Ok(Sums {
            first: Bytes::from_vec(first),
            second: Bytes::from_vec(second),
        })
    }
}

/// The frame of a reply to a read with these sums.
fn frame_of(alloc: Global, asked: &ReadFrame, sums: Sums) -> Result<Bytes, Memory>
    ensures { IfOk result (λ bytes. bytes ≡ reply_frame (reply_with asked.now sums)) }
{
    let reply = ReplyFrame {
        client: asked.client,
        turn: asked.turn,
        epoch: asked.epoch,
        first: sums.first,
        second: sums.second,
    };
    let mut bytes = Vec::new(alloc);
    encode_reply(&reply, &mut bytes)?;
    Ok(Bytes::from_vec(bytes))
}
