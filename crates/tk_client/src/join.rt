ghost use Rattle.std.specs.Prelude.{◌≡◌, length};
ghost use Rattle.tk_shape.specs.Lengths.{width};
ghost use Rattle.tk_client.specs.Replies.{frames_in, first_joined, second_joined, AreWholeReplies};

use tk_frames::sums_of;
use tk_kernel::xor_into;
use tk_shape::{Bytes, Shape};

/// Writes the two blocks that the replies of all servers join to.
pub(crate) fn join(shape: &Shape, replies: &[Bytes], first: &mut [u8], second: &mut [u8])
    requires whole { AreWholeReplies shape.now replies.now }
    requires first_room { length first.old ≡ width shape.now }
    requires second_room { length second.old ≡ width shape.now }
    ensures first { first.new ≡ first_joined shape.now (frames_in shape.now replies.now) }
    ensures second { second.new ≡ second_joined shape.now (frames_in shape.now replies.now) }
{
    first.fill(0);
    second.fill(0);
    for reply in replies {
        let (one, other) = sums_of(shape, reply.as_slice());
        xor_into(first, one);
        xor_into(second, other);
    }
}
