ghost use Rattle.std.specs.Prelude.{◌≡◌, List, Some, Ok, length, ℕ, IfSome};
ghost use Rattle.hex.specs.Hex.{decode_of};
ghost use Rattle.tk_script.specs.Answer.{Agrees};
ghost use Rattle.tk_script.specs.Reading.{IsTaken, named, read_handle, read_keys, read_seed};
ghost use Rattle.tk_script.specs.Stands.{stands};

use crate::fields::rest_behind;
use crate::place::Place;
use crate::rows::{LineKind, counted};
use crate::{Cause, ClientSeeds, Handles, Keys, ScriptError};
use hex::FromHex;
use std::alloc::Global;
use tk_handle::Handle;
use tk_shape::{Memory, Shape};

/// The keys of a keyed script, and the place after them: a drawn script has none.
pub(crate) fn keys_of<'a>(
    alloc: Global,
    shape: &Shape,
    keyed: bool,
    start: Place<'a>,
) -> Result<(Option<Keys>, Place<'a>), ScriptError>
    ensures { Agrees (λ x. (x.0, stands x.1)) result
        (read_keys (named shape.now) keyed (stands start.entry)) }
{
    if !keyed {
        return Ok((None, start));
    }
    let (handles, rest) = counted(alloc, &HandleLines, shape.logs, start)?;
    let (seeds, rest) = counted(alloc, &SeedLines, shape.clients, rest)?;
    let keys = Keys {
        handles: Handles::from_vec(handles),
        seeds: ClientSeeds::from_vec(seeds),
    };
    Ok((Some(keys), rest))
}

/// The lines of handles.
struct HandleLines;

impl LineKind for HandleLines {
    ghost use Rattle.tk_script.specs.Reading.{alone, read_handle};

    type Item = Handle;

    ghost reads = { λ k. alone read_handle };

    fn read(
        &self,
        alloc: Global,
        before: &[Handle],
        line: &[u8],
    ) -> Result<Result<Handle, Cause>, Memory> {
        Ok(handle_of(line).ok_or(Cause::Form))
    }
}

/// The lines of seeds.
struct SeedLines;

impl LineKind for SeedLines {
    ghost use Rattle.tk_script.specs.Reading.{alone, read_seed};

    type Item = [u8; 32];

    ghost reads = { λ k. alone read_seed };

    fn read(
        &self,
        alloc: Global,
        before: &[[u8; 32]],
        line: &[u8],
    ) -> Result<Result<[u8; 32], Cause>, Memory> {
        Ok(seed_of(line).ok_or(Cause::Form))
    }
}

/// The handle that a line spells in 208 digits.
fn handle_of(line: &[u8]) -> Option<Handle>
    ensures { IsTaken result (read_handle line.now) }
{
    let digits = rest_behind(line, b"handle ")?;
    let bytes = bytes_of::<104>(digits)?;
    Handle::from_bytes(bytes.as_slice())
}

/// The seed that a line spells in 64 digits.
fn seed_of(line: &[u8]) -> Option<[u8; 32]>
    ensures { IsTaken result (read_seed line.now) }
{
    let digits = rest_behind(line, b"seed ")?;
    bytes_of::<32>(digits)
}

/// The bytes that twice as many digits are.
fn bytes_of<const N: usize>(digits: &[u8]) -> Option<[u8; N]>
    ensures found { IfSome result (λ bytes. decode_of digits.now ≡ Ok bytes) }
    ensures counted { IfSome result (λ bytes. length bytes ≡ N) }
    ensures only { (bytes : List ℕ) → decode_of digits.now ≡ Ok bytes → length bytes ≡ N →
        result ≡ Some bytes }
{
    <[u8; N] as FromHex>::from_hex(digits).ok()
}
