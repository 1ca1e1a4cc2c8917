//! What a reader keeps of an answer.
ghost use Rattle.std.specs.Prelude.{◌≡◌, ◌+◌, ◌<◌, ◌≤◌, length, map, slice_set, Some, None};
ghost use Rattle.std.specs.Prelude.{OnOk, OnErr};
ghost use Rattle.tk_shape.specs.declared.shape.Shape.{Shape};
ghost use Rattle.tk_client.specs.Reader.{untried, follow_after};
ghost use Rattle.tk_client.specs.Reader.{follow_in};
ghost use Rattle.tk_client.specs.Searching.{follows_anew};

use crate::follow::Follow;
use crate::target::Target;
use std::alloc::Global;
use tk_shape::{Bytes, Memory, Shape};

/// In a new epoch nothing is tried yet.
pub(crate) fn renew(follows: &mut [Follow], anew: bool)
    ensures { follows.new ≡ follows_anew anew follows.old }
{
    if anew {
        forget_tried(follows);
    }
}

/// Records the answer to a read for a number of one of these logs.
pub(crate) fn record_answer(
    alloc: Global,
    shape: &Shape,
    follows: &mut [Follow],
    anew: bool,
    target: Target,
    answer: Option<Bytes>,
) -> Result<(), Memory>
    requires place_in { target.place < length follows.old }
    requires ahead_in { target.ahead ≤ 8 }
    ensures recorded { let known = follows_anew anew follows.old in
        OnOk result (follows.new ≡ slice_set known target.place
        (follow_after shape.now target.ahead answer (follow_in known target.place))) }
    ensures err { OnErr result (follows.new ≡ follows.old) }
{
    match answer {
        Some(text) => {
            settle_at(alloc, follows, target.place, target.ahead, text)?;
            renew(follows, anew);
            Ok(())
        }
        None => {
            renew(follows, anew);
            try_at(shape, follows, target.place, target.ahead);
            Ok(())
        }
    }
}

/// Settles the numbers of one of these logs up to the one that is so far ahead of its next, which
/// gave a text.
fn settle_at(
    alloc: Global,
    follows: &mut [Follow],
    place: usize,
    ahead: u32,
    text: Bytes,
) -> Result<(), Memory>
    requires place_in { place < length follows.old }
    ensures settled { OnOk result ((shape : Shape) → follows.new ≡ slice_set follows.old place
        (follow_after shape ahead (Some text) (follow_in follows.old place))) }
    ensures err { OnErr result (follows.new ≡ follows.old) }
{
    let follow = &mut follows[place];
    follow.settle(alloc, ahead, text)
}

/// Counts the number of one of these logs that is so far ahead of its next, and those before it, as
/// tried in vain. Without reading ahead the next number is always tried again.
fn try_at(shape: &Shape, follows: &mut [Follow], place: usize, ahead: u32)
    requires place_in { place < length follows.old }
    requires ahead_in { ahead ≤ 8 }
    ensures { follows.new ≡ slice_set follows.old place
        (follow_after shape.now ahead None (follow_in follows.old place)) }
{
    if shape.ahead == 0 {
        return;
    }
    let follow = &mut follows[place];
    follow.set_tried(ahead + 1);
}

fn forget_tried(follows: &mut [Follow])
    ensures { follows.new ≡ map untried follows.old }
{
    for follow in follows.iter_mut() {
        follow.set_tried(0);
    }
}
