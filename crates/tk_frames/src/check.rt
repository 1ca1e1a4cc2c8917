//! What a decoder checks before it takes memory.
ghost use Rattle.std.specs.Prelude.{◌≡◌, ◌+◌, ◌*◌, ◌≤◌, ◌∷◌, [], length, Some, None, if◌then◌else◌, map};
ghost use Rattle.std.specs.Result.{result_err};
ghost use Rattle.tk_frames.specs.declared.fault.FrameError.TheVariants as fault;
ghost use Rattle.tk_frames.specs.Fields.{numbers};
ghost use Rattle.tk_frames.specs.Faults.{first_fault, head_checks, hit_check, write_field_checks};
ghost use Rattle.tk_frames.specs.Faults.{asker_checks, asked_checks, position_check, write_checks, read_checks};
ghost use Rattle.tk_frames.specs.Faults.{read_len_of, read_checks_of, any_read_checks};
ghost use Rattle.tk_frames.specs.Faults.{reply_checks, mark_checks, record_checks};

use crate::kind::{self, VERSION};
use crate::numbers::{u32_at, u64_at};
use crate::{FrameError, Name};
use tk_shape::Shape;

fn check(passed: bool, name: Name, got: u32) -> Result<(), FrameError>
    ensures { result_err result ≡ (if passed then None else Some (fault.Field name got)) }
{
    if passed {
        Ok(())
    } else {
        Err(FrameError::Field {
            name,
            got: u64::from(got),
        })
    }
}

fn check_head(bytes: &[u8], want: u32, kind: u8) -> Result<(), FrameError>
    requires { 2 ≤ want }
    ensures { result_err result ≡ first_fault (head_checks want kind bytes.now) }
{
    let (want, got) = (u64::from(want), bytes.len() as u64);
    if got != want {
        return Err(FrameError::Length { want, got });
    }
    if bytes[0] != kind {
        return Err(FrameError::Kind { got: bytes[0] });
    }
    if bytes[1] != VERSION {
        return Err(FrameError::Version { got: bytes[1] });
    }
    Ok(())
}

fn check_asker(shape: &Shape, bytes: &[u8]) -> Result<(), FrameError>
    requires { 14 ≤ length bytes.now }
    ensures { result_err result ≡ first_fault (asker_checks shape.now bytes.now) }
{
    let client = u32_at(bytes, 2);
    check(client < shape.clients, Name::Client, client)?;
    let turn = u32_at(bytes, 6);
    check(turn < shape.turns(), Name::Turn, turn)?;
    let epoch = u32_at(bytes, 10);
    check(epoch <= shape.phases, Name::Epoch, epoch)
}

/// Whether bytes have this kind and length, and name a client, a turn and an epoch in range, as a read and a reply do.
pub fn check_asked(shape: &Shape, bytes: &[u8], want: u32, kind: u8) -> Result<(), FrameError>
    requires { 14 ≤ want }
    ensures { result_err result ≡ first_fault (asked_checks shape.now want kind bytes.now) }
{
    check_head(bytes, want, kind)?;
    check_asker(shape, bytes)
}

fn check_hits(shape: &Shape, bytes: &[u8]) -> Result<(), FrameError>
    requires { 4 * shape.now.hits ≤ length bytes.now }
    ensures { result_err result ≡ first_fault (map (hit_check shape.now) (numbers shape.now.hits bytes.now)) }
{
    let count = shape.hits;
    let mut rest = bytes;
    for _ in 0..count {
        let hit = u32_at(rest, 0);
        check(hit < shape.filter_bits, Name::Hit, hit)?;
        rest = rest.split_at(4).1;
    }
    Ok(())
}

fn check_write_fields(shape: &Shape, fields: &[u8]) -> Result<(), FrameError>
    requires { 16 + 4 * shape.now.hits ≤ length fields.now }
    ensures { result_err result ≡ first_fault (write_field_checks shape.now fields.now) }
{
    let client = u32_at(fields, 0);
    check(client < shape.clients, Name::Client, client)?;
    let turn = u32_at(fields, 4);
    check(turn < shape.turns(), Name::Turn, turn)?;
    let first = u32_at(fields, 8);
    check(first < shape.buckets, Name::First, first)?;
    let second = u32_at(fields, 12);
    check(second < shape.buckets, Name::Second, second)?;
    check_hits(shape, &fields[16..])
}

fn check_position(shape: &Shape, bytes: &[u8]) -> Result<(), FrameError>
    requires { 10 ≤ length bytes.now }
    ensures { result_err result ≡ first_fault (position_check shape.now bytes.now ∷ []) }
{
    let got = u64_at(bytes, 2);
    let last = shape.clients * shape.turns() + shape.phases;
    if got < 1 || got > u64::from(last) {
        let name = Name::Position;
        return Err(FrameError::Field { name, got });
    }
    Ok(())
}

pub fn check_write(shape: &Shape, bytes: &[u8]) -> Result<(), FrameError>
    ensures { result_err result ≡ first_fault (write_checks shape.now bytes.now) }
{
    check_head(bytes, shape.write_len(), kind::WRITE)?;
    check_write_fields(shape, &bytes[2..])
}

pub fn check_read(shape: &Shape, bytes: &[u8]) -> Result<(), FrameError>
    ensures { result_err result ≡ first_fault (read_checks shape.now bytes.now) }
{
    if shape.format == 2 {
        check_any_read(shape, bytes)
    } else {
        check_read_of(shape, kind::READ, bytes)
    }
}

/// The kind is looked at before the length, since reads differ in length.
fn check_any_read(shape: &Shape, bytes: &[u8]) -> Result<(), FrameError>
    ensures { result_err result ≡ first_fault (any_read_checks shape.now bytes.now) }
{
    match bytes {
        [kind::READ, _, ..] => check_read_of(shape, kind::READ, bytes),
        [kind::SEEDED, _, ..] => check_read_of(shape, kind::SEEDED, bytes),
        [kind::SHOWN, _, ..] => check_read_of(shape, kind::SHOWN, bytes),
        [got, _, ..] => Err(FrameError::Kind { got: *got }),
        _ => Err(FrameError::Length {
            want: u64::from(shape.read_len()),
            got: bytes.len() as u64,
        }),
    }
}

fn check_read_of(shape: &Shape, kind: u8, bytes: &[u8]) -> Result<(), FrameError>
    ensures { result_err result ≡ first_fault (read_checks_of shape.now kind bytes.now) }
{
    check_asked(shape, bytes, read_len_of(shape, kind), kind)
}

/// The length of a read of a kind.
fn read_len_of(shape: &Shape, kind: u8) -> u32
    ensures len { result ≡ read_len_of shape.now kind }
    ensures low { 14 ≤ result }
{
    match kind {
        kind::SEEDED => shape.seed_read_len(false),
        kind::SHOWN => shape.seed_read_len(true),
        _ => shape.read_len(),
    }
}

/// Whether bytes are a reply.
pub fn check_reply(shape: &Shape, bytes: &[u8]) -> Result<(), FrameError>
    ensures { result_err result ≡ first_fault (reply_checks shape.now bytes.now) }
{
    check_asked(shape, bytes, shape.reply_len(), kind::REPLY)
}

pub fn check_mark(shape: &Shape, bytes: &[u8]) -> Result<(), FrameError>
    ensures { result_err result ≡ first_fault (mark_checks shape.now bytes.now) }
{
    check_head(bytes, 14, kind::MARK)?;
    check_position(shape, bytes)?;
    let epoch = u32_at(bytes, 10);
    check(epoch >= 1 && epoch <= shape.phases, Name::Epoch, epoch)
}

pub fn check_record(shape: &Shape, bytes: &[u8]) -> Result<(), FrameError>
    ensures { result_err result ≡ first_fault (record_checks shape.now bytes.now) }
{
    check_head(bytes, shape.record_len(), kind::RECORD)?;
    check_position(shape, bytes)?;
    check_write_fields(shape, &bytes[10..])
}
