ghost use Rattle.std.specs.Prelude.{◌≡◌, ◌≢◌, ◌<◌, ◌^◌, ◌*◌, ◌++◌, ℕ, List, Ok, length};
ghost use Rattle.std.specs.Prelude.{IfOk, IfSome, IfNone};
ghost use Rattle.hex.specs.Hex.{decode_of};
ghost use Rattle.tk_script.specs.Answer.{Agrees};
ghost use Rattle.tk_script.specs.Reading.{named, read_replies, read_reply, whose_out};
ghost use Rattle.tk_script.specs.Reading.{why_unanswered};
ghost use Rattle.tk_script.specs.SoundReplies.{is_before, may_follow};
ghost use Rattle.tk_script.specs.Stands.{stands};

use crate::fields::three_behind;
use crate::place::Place;
use crate::rows::{LineKind, up_to_end};
use crate::{Cause, RawReplies, RawReply, ScriptError};
use std::alloc::Global;
use tk_shape::{Bytes, Memory, Shape};

/// The section of the replies in a shape that begins here, and the place after it.
pub(crate) fn replies_of<'a>(
    alloc: Global,
    shape: &Shape,
    start: Place<'a>,
) -> Result<(RawReplies, Place<'a>), ScriptError>
    ensures { Agrees (λ x. (x.0, stands x.1)) result
        (read_replies (named shape.now) (stands start.entry)) }
{
    let here = start.behind(b"replies")?;
    let (replies, rest) = up_to_end(alloc, &ReplyLines { shape }, here)?;
    Ok((RawReplies::from_vec(replies), rest))
}

/// The lines of the replies in a shape, in order.
#[derive(Clone, Copy)]
struct ReplyLines<'a> {
    shape: &'a Shape,
}

impl<'a> LineKind for ReplyLines<'a> {
    ghost use Rattle.tk_script.specs.Reading.{named, read_reply};

    type Item = RawReply;

    ghost reads = { λ k. read_reply (named k.shape.now) };

    fn read(
        &self,
        alloc: Global,
        before: &[RawReply],
        line: &[u8],
    ) -> Result<Result<RawReply, Cause>, Memory> {
        reply_of(alloc, self.shape, before, line)
    }
}

/// The reply that a line says after those before it: two sums of a bucket's width, in twice as many
/// digits as they have bytes.
fn reply_of(
    alloc: Global,
    shape: &Shape,
    before: &[RawReply],
    line: &[u8],
) -> Result<Result<RawReply, Cause>, Memory>
    ensures { IfOk result (λ r. r ≡ read_reply (named shape.now) before.now line.now) }
{
    let Some((turn, client, server, digits)) = three_behind(b"reply", line) else {
        return Ok(Err(Cause::Form));
    };
    let Some((first, second)) = sums_of(alloc, shape.width() as usize, digits)? else {
        return Ok(Err(Cause::Form));
    };
    let reply = RawReply {
        turn,
        client,
        server,
        first,
        second,
    };
    match why_not(shape, before, &reply) {
        Some(cause) => Ok(Err(cause)),
        None => Ok(Ok(reply)),
    }
}

/// Two sums of this many bytes, the first in front.
fn sums_of(alloc: Global, width: usize, digits: &[u8]) -> Result<Option<(Bytes, Bytes)>, Memory>
    requires { width < 2 ^ 32 }
    ensures found { IfOk result (λ o. IfSome o (λ x. decode_of digits.now ≡ Ok (x.0 ++ x.1))) }
    ensures first { IfOk result (λ o. IfSome o (λ x. length x.0 ≡ width)) }
    ensures second { IfOk result (λ o. IfSome o (λ x. length x.1 ≡ width)) }
    ensures none { IfOk result (λ o. IfNone o ((bytes : List ℕ) → decode_of digits.now ≡ Ok bytes →
        length bytes ≢ 2 * width)) }
{
    let mut sums = vec![in alloc; 0; 2 * width]?;
    let Ok(()) = hex::decode_to_slice(digits, sums.as_mut_slice()) else {
        return Ok(None);
    };
    let second = Bytes::from_slice(alloc, &sums[width..])?;
    sums.truncate(width);
    Ok(Some((Bytes::from_vec(sums), second)))
}

/// Why a reply may not come after those before it.
fn why_not(shape: &Shape, before: &[RawReply], reply: &RawReply) -> Option<Cause>
    ensures { result ≡ why_unanswered (may_follow before.now reply.now)
        (whose_out (named shape.now) (reply.now.turn, reply.now.client, reply.now.server)) }
{
    if let Some(value) = out_of_range(shape, reply) {
        return Some(Cause::Number { value });
    }
    if !may_follow(before, reply) {
        return Some(Cause::Order);
    }
    None
}

/// The first of a reply's turn, client and server that is out of range.
fn out_of_range(shape: &Shape, reply: &RawReply) -> Option<u32>
    ensures { result ≡ whose_out (named shape.now)
        (reply.now.turn, reply.now.client, reply.now.server) }
{
    if reply.turn >= shape.turns() {
        return Some(reply.turn);
    }
    if reply.client >= shape.clients {
        return Some(reply.client);
    }
    if reply.server < 1 || reply.server > shape.servers {
        return Some(reply.server);
    }
    None
}

/// Whether the last of these, if there is one, comes before the next.
fn may_follow(before: &[RawReply], next: &RawReply) -> bool
    ensures { result ≡ may_follow before.now next.now }
{
    match before.last() {
        Some(last) => is_before(last, next),
        None => true,
    }
}

/// Whether the first of two replies comes before the second, by turn, client and server.
fn is_before(first: &RawReply, second: &RawReply) -> bool
    ensures { result ≡ is_before first.now second.now }
{
    first.turn < second.turn
        || (first.turn == second.turn
            && (first.client < second.client
                || (first.client == second.client && first.server < second.server)))
}
