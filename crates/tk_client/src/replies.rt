//! The replies to a read: whether they are what was asked for, and the text that they give.
ghost use Rattle.std.specs.Prelude.{◌≡◌, ◌≢◌, ◌<◌, ◌≤◌, length, None, IfSome, IfOk, IfErr, OnOk};
ghost use Rattle.std.specs.Result.{result_err};
ghost use Rattle.tk_shape.specs.Lengths.{turn_count, reply_len};
ghost use Rattle.tk_words.specs.Words.{words_of};
ghost use Rattle.tk_frames.specs.declared.fault.FrameError.TheVariants as frame_fault;
ghost use Rattle.tk_frames.specs.Fields.{reply_in};
ghost use Rattle.tk_client.specs.declared.take_error.TakeError.TheVariants as fault;
ghost use Rattle.tk_client.specs.Replies.{frames_in, answer_in, unread, first_unread, refusal};
ghost use Rattle.tk_client.specs.Replies.{IsRefusedForOrMemory, IsPlain, AreWholeReplies};
ghost use Rattle.tk_client.specs.Replies.{other_number, other_name, first_other};

use crate::join::join;
use crate::open_read::OpenRead;
use crate::pairs::KeptPair;
use crate::take_error::TakeError;
use crate::target::Target;
use crate::wanted::{text_in_blocks, wanted_for};
use std::alloc::Global;
use tk_frames::{FrameError, check_reply, u32_at};
use tk_shape::{Bytes, Memory, Shape};
use tk_words::Draws;

/// Whether the replies to a read of a client are what was asked for.
pub(crate) fn check_replies(
    shape: &Shape,
    client: u32,
    read: OpenRead,
    replies: &[Bytes],
) -> Result<(), TakeError>
    requires counted { length replies.now ≡ shape.now.servers }
    ensures whole { OnOk result (AreWholeReplies shape.now replies.now) }
    ensures may { OnOk result (refusal shape.now client read.turn read.epoch replies.now ≡ None) }
    ensures refused { IfErr result
        (IsRefusedForOrMemory (refusal shape.now client read.turn read.epoch replies.now)) }
    ensures plain { IfErr result IsPlain }
{
    check_frames(shape, replies)?;
    check_names(shape, client, read, replies)
}

/// Whether all replies can be read, server by server.
fn check_frames(shape: &Shape, replies: &[Bytes]) -> Result<(), TakeError>
    requires { length replies.now ≤ 8 }
    ensures whole { OnOk result (AreWholeReplies shape.now replies.now) }
    ensures kept { OnOk result (first_unread shape.now 1 replies.now ≡ None) }
    ensures refused { IfErr result (IsRefusedForOrMemory (first_unread shape.now 1 replies.now)) }
    ensures plain { IfErr result IsPlain }
{
    for (i, reply) in replies.iter().enumerate() {
        check_frame(shape, i as u32 + 1, reply.as_slice())?;
    }
    Ok(())
}

/// Whether the reply of a server can be read.
fn check_frame(shape: &Shape, server: u32, reply: &[u8]) -> Result<(), TakeError>
    ensures whole { OnOk result (length reply.now ≡ reply_len shape.now) }
    ensures kept { OnOk result (unread shape.now server reply.now ≡ None) }
    ensures refused { IfErr result (IsRefusedForOrMemory (unread shape.now server reply.now)) }
    ensures plain { IfErr result IsPlain }
{
    match check_reply(shape, reply) {
        Ok(()) => Ok(()),
        Err(error) => Err(told(server, error)),
    }
}

/// Why the reply of a server can't be read.
fn told(server: u32, error: FrameError) -> TakeError
    ensures memory { error ≡ frame_fault.Memory → result ≡ fault.Memory }
    ensures frame { error ≢ frame_fault.Memory → result ≡ fault.Frame server error }
{
    match error {
        FrameError::Memory => TakeError::Memory,
        FrameError::Length { .. } => TakeError::Frame { server, error },
        FrameError::Kind { .. } => TakeError::Frame { server, error },
        FrameError::Version { .. } => TakeError::Frame { server, error },
        FrameError::Field { .. } => TakeError::Frame { server, error },
    }
}

/// Whether all replies name this read, server by server.
fn check_names(
    shape: &Shape,
    client: u32,
    read: OpenRead,
    replies: &[Bytes],
) -> Result<(), TakeError>
    requires few { length replies.now ≤ 8 }
    requires whole { AreWholeReplies shape.now replies.now }
    ensures first { result_err result
        ≡ first_other client read.turn read.epoch 1 (frames_in shape.now replies.now) }
    ensures plain { IfErr result IsPlain }
{
    for (i, reply) in replies.iter().enumerate() {
        check_name(shape, client, read, i as u32 + 1, reply.as_slice())?;
    }
    Ok(())
}

/// Whether a server's reply names this read.
fn check_name(
    shape: &Shape,
    client: u32,
    read: OpenRead,
    server: u32,
    reply: &[u8],
) -> Result<(), TakeError>
    requires { length reply.now ≡ reply_len shape.now }
    ensures other { result_err result
        ≡ other_name client read.turn read.epoch server (reply_in shape.now reply.now) }
    ensures plain { IfErr result IsPlain }
{
    check_number(server, client, u32_at(reply, 2))?;
    check_number(server, read.turn, u32_at(reply, 6))?;
    check_number(server, read.epoch, u32_at(reply, 10))
}

fn check_number(server: u32, want: u32, got: u32) -> Result<(), TakeError>
    ensures other { result_err result ≡ other_number server want got }
    ensures plain { IfErr result IsPlain }
{
    if want == got {
        Ok(())
    } else {
        Err(TakeError::Named { server, want, got })
    }
}

/// The text that replies give for what a read was for, the buckets of which may be kept.
pub(crate) fn answer_of<D: Draws>(
    alloc: Global,
    shape: &Shape,
    draws: &D,
    replies: &[Bytes],
    target: Option<Target>,
    kept: Option<KeptPair>,
) -> Result<Option<Bytes>, Memory>
    requires one_shape { D.shape draws.now ≡ shape.now }
    requires whole { AreWholeReplies shape.now replies.now }
    requires log_in { IfSome target (λ t. t.log < shape.now.logs) }
    requires number_in { IfSome target (λ t. t.number < turn_count shape.now) }
    ensures { let words = words_of shape.now (D.book draws.now) in IfOk result (λ o.
        o ≡ answer_in shape.now words (frames_in shape.now replies.now) target) }
{
    let Some(target) = target else {
        return Ok(None);
    };
    let width = shape.width() as usize;
    let mut blocks = vec![in alloc; 0u8; 2 * width]?;
    let (first, second) = blocks.as_mut_slice().split_at_mut(width);
    join(shape, replies, first, second);
    let wanted = wanted_for(shape, draws, target, kept);
    text_in_blocks(alloc, shape, draws, wanted, first, second)
}
