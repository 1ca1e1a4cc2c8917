ghost use Rattle.std.specs.Prelude.{◌≡◌, ◌++◌, OnOk, flat_map};
ghost use Rattle.tk_relay.specs.Parts.{masked_reply_frame};

use crate::Part;
use crate::part_frames::{encode_masked_reply, encode_part};
use tk_shape::{Bytes, Memory};

/// A client's read on its way: the bundle, the parts that server 1 passes on, by server, and the replies to them so far.
#[derive(Drop)]
pub(crate) struct RelayedRead {
    pub bundle: Bytes,
    pub parts: Vec<Part>,
    pub replies: Vec<Part>,
}

impl RelayedRead {
    ghost use Rattle.std.specs.Prelude.{◌≡◌, ◌≤◌, ◌++◌, length, OnOk};
    ghost use Rattle.tk_relay.specs.Reads.{HasReply, read_seen};

    /// Puts a server's reply after the others.
    pub(crate) fn take(&mut self, reply: Part) -> Result<(), Memory>
        ensures { OnOk result (HasReply reply self.old self.new) }
    {
        self.replies.push(reply)?;
        Ok(())
    }

    /// Appends what a server sees of the read: server 1 the bundle and the masked replies of all others, and another its
    /// part and its masked reply.
    pub(crate) fn see(&self, server: u32, out: &mut Vec<u8>) -> Result<(), Memory>
        requires low { 1 ≤ server }
        requires parts { server ≤ length self.now.parts.items }
        requires replies { server ≤ length self.now.replies.items }
        ensures { OnOk result (out.new.items ≡ out.old.items ++ read_seen server self.now) }
    {
        if server == 1 {
            out.extend_from_slice(self.bundle.as_slice())?;
            see_replies(&self.replies.as_slice()[1..], out)
        } else {
            encode_part(&self.parts[server as usize - 1], out)?;
            encode_masked_reply(&self.replies[server as usize - 1], out)
        }
    }
}

/// Appends the frames of masked replies.
fn see_replies(replies: &[Part], out: &mut Vec<u8>) -> Result<(), Memory>
    ensures { OnOk result
        (out.new.items ≡ out.old.items ++ flat_map masked_reply_frame replies.now) }
{
    for reply in replies {
        encode_masked_reply(reply, out)?;
    }
    Ok(())
}
