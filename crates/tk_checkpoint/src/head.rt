//! The numbers in front of a checkpoint.
ghost use Rattle.std.specs.Prelude.{◌≡◌, ◌+◌, ◌≤◌, length, find, OnOk};
ghost use Rattle.std.specs.Result.{result_err};
ghost use Rattle.tk_shape.specs.Numbers.{format_and_numbers};
ghost use Rattle.tk_shape.specs.Differences.{fields, side_by_side, are_apart};
ghost use Rattle.tk_frames.specs.Fields.{number_at};
ghost use Rattle.tk_checkpoint.specs.Saved.{head_len, entry_len, table_len};
ghost use Rattle.tk_checkpoint.specs.Reading.{numbers_in, applied_in, last_in, count_in};
ghost use Rattle.tk_checkpoint.specs.Sound.{first_refusal, head_checks, start_checks, shape_checks};
ghost use Rattle.tk_checkpoint.specs.Sound.{number_checks};

use crate::RestoreError;
use tk_frames::{u32_at, u64_at};
use tk_shape::{Differs, Field, Shape};

/// The bytes in front of the window.
pub(crate) const HEAD_LEN: usize = 73;

/// The numbers in front that differ from one checkpoint of a shape to another.
#[derive(Clone, Copy, Debug)]
pub(crate) struct Head {
    pub applied: u64,
    pub last: u32,
    pub count: u32,
}

/// Checks the numbers in front, and that the bytes are as many as they say.
pub(crate) fn check_head(shape: &Shape, bytes: &[u8]) -> Result<(), RestoreError>
    ensures { result_err result ≡ first_refusal (head_checks shape.now bytes.now) }
{
    check_start(shape, bytes)?;
    check_shape(shape, bytes)?;
    check_counts(shape, &head_of(bytes), bytes.len() as u64)
}

/// The numbers in front.
pub(crate) fn head_of(bytes: &[u8]) -> Head
    requires { head_len ≤ length bytes.now }
    ensures applied { result.applied ≡ applied_in bytes.now }
    ensures last { result.last ≡ last_in bytes.now }
    ensures count { result.count ≡ count_in bytes.now }
{
    Head {
        applied: u64_at(bytes, 57),
        last: u32_at(bytes, 65),
        count: u32_at(bytes, 69),
    }
}

fn check_start(shape: &Shape, bytes: &[u8]) -> Result<(), RestoreError>
    ensures refused { result_err result ≡ first_refusal (start_checks shape.now bytes.now) }
    ensures long { OnOk result (head_len ≤ length bytes.now) }
{
    let want = HEAD_LEN as u64 + table_len(shape);
    let got = bytes.len() as u64;
    if got < want {
        return Err(RestoreError::Length { want, got });
    }
    if bytes[0] != b'T' || bytes[1] != b'A' || bytes[2] != b'L' || bytes[3] != b'K' {
        return Err(RestoreError::Magic);
    }
    if bytes[4] != 1 {
        return Err(RestoreError::Version { got: bytes[4] });
    }
    Ok(())
}

/// The bytes of a table.
pub(crate) fn table_len(shape: &Shape) -> u64
    ensures { result ≡ table_len shape.now }
{
    u64::from(shape.buckets * shape.width())
}

/// The bytes of a write of the window.
pub(crate) fn entry_len(shape: &Shape) -> usize
    ensures { result ≡ entry_len shape.now }
{
    8 + 4 * shape.hits as usize
}

fn check_shape(shape: &Shape, bytes: &[u8]) -> Result<(), RestoreError>
    requires { head_len ≤ length bytes.now }
    ensures { result_err result ≡ first_refusal (shape_checks shape.now bytes.now) }
{
    match first_apart(&beside(shape, bytes)) {
        Some(differs) => Err(RestoreError::Shape(differs)),
        None => Ok(()),
    }
}

fn first_apart(pairs: &[Differs]) -> Option<Differs>
    ensures { result ≡ find are_apart pairs.now }
{
    pairs.iter().find(|d| d.a != d.b).copied()
}

/// A number of a shape beside that at a place of the bytes.
fn at(field: Field, a: u32, bytes: &[u8], place: usize) -> Differs
    requires { place + 4 ≤ length bytes.now }
    ensures { result ≡ record { field = field; a = a; b = number_at place bytes.now } }
{
    Differs {
        field,
        a,
        b: u32_at(bytes, place),
    }
}

/// The format and each number of a shape beside those of the bytes.
fn beside(shape: &Shape, bytes: &[u8]) -> [Differs; 13]
    requires { head_len ≤ length bytes.now }
    ensures { result ≡ side_by_side fields (format_and_numbers shape.now) (numbers_in bytes.now) }
{
    [
        at(Field::Format, shape.format, bytes, 5),
        at(Field::Servers, shape.servers, bytes, 9),
        at(Field::Buckets, shape.buckets, bytes, 13),
        at(Field::Depth, shape.depth, bytes, 17),
        at(Field::Retained, shape.retained, bytes, 21),
        at(Field::Block, shape.block, bytes, 25),
        at(Field::Filter, shape.filter_bits, bytes, 29),
        at(Field::Hits, shape.hits, bytes, 33),
        at(Field::Ahead, shape.ahead, bytes, 37),
        at(Field::Clients, shape.clients, bytes, 41),
        at(Field::Phases, shape.phases, bytes, 45),
        at(Field::Ticks, shape.ticks, bytes, 49),
        at(Field::Logs, shape.logs, bytes, 53),
    ]
}

fn check_counts(shape: &Shape, head: &Head, got: u64) -> Result<(), RestoreError>
    ensures { result_err result
        ≡ first_refusal (number_checks shape.now head.now.applied head.now.last head.now.count got) }
{
    let Head {
        applied,
        last,
        count,
    } = *head;
    if applied > u64::from(shape.clients * shape.turns() + shape.phases) {
        return Err(RestoreError::Applied { got: applied });
    }
    if last > shape.phases || u64::from(last) > applied || (last == 0) != (applied == 0) {
        return Err(RestoreError::Last { got: last });
    }
    let want = (applied - u64::from(last)).min(u64::from(shape.retained)) as u32;
    if count != want {
        return Err(RestoreError::Count { want, got: count });
    }
    let want = HEAD_LEN as u64 + u64::from(count) * entry_len(shape) as u64 + table_len(shape);
    if got != want {
        return Err(RestoreError::Length { want, got });
    }
    Ok(())
}
