ghost use Rattle.std.specs.Prelude.{◌≡◌, ◌++◌, ◌∷◌, ℕ, List, [], ◌-◌, length, take, replicate};
ghost use Rattle.std.specs.Prelude.{Some, Ok, IfOk, IfSome, IsSomeAnd, OnOk};
ghost use Rattle.hex.specs.Hex.{decode_of};
ghost use Rattle.tk_script.specs.Pieces.{piece_bytes};
ghost use Rattle.tk_script.specs.Reading.{IsRead, parts_of, read_digits, read_fill, read_piece};

use crate::Cause;
use crate::fields::{next_number, rest_behind};
use std::alloc::Global;
use tk_shape::Memory;

/// A piece of a tape: bytes in hexadecimal, or one byte a number of times.
#[derive(Drop)]
pub(crate) enum Piece {
    Bytes(Vec<u8>),
    Fill { byte: u8, count: u32 },
}

/// The most bytes of a piece in hexadecimal.
const MOST_BYTES: usize = 2048;

/// The most repeats of a byte.
const MOST_REPEATS: u32 = 2097152;

impl Piece {
    /// How many bytes the piece has.
    pub(crate) fn len(&self) -> u64
        ensures { result ≡ length (piece_bytes self.now) }
    {
        match self {
            Piece::Bytes(bytes) => bytes.len() as u64,
            Piece::Fill { count, .. } => u64::from(*count),
        }
    }

    /// Appends the bytes, up to `want` in all.
    pub(crate) fn append_to(&self, kept: &mut Vec<u8>, want: usize) -> Result<(), Memory>
        ensures ok { OnOk result (kept.new.items
            ≡ kept.old.items ++ take (want - length kept.old.items) (piece_bytes self.now)) }
    {
        let room = want.saturating_sub(kept.len());
        match self {
            Piece::Bytes(bytes) => append_front(bytes.as_slice(), room, kept),
            Piece::Fill { byte, count } => append_repeats(*byte, room.min(*count as usize), kept),
        }
    }
}

/// Appends the first bytes of a slice, `room` at most.
fn append_front(bytes: &[u8], room: usize, kept: &mut Vec<u8>) -> Result<(), Memory>
    ensures ok { OnOk result (kept.new.items ≡ kept.old.items ++ take room bytes.now) }
{
    kept.extend_from_slice(&bytes[..room.min(bytes.len())])?;
    Ok(())
}

/// Appends a byte a number of times.
fn append_repeats(byte: u8, count: usize, kept: &mut Vec<u8>) -> Result<(), Memory>
    ensures ok { OnOk result (kept.new.items ≡ kept.old.items ++ replicate count byte) }
{
    'repeats: for _ in 0..count {
        kept.push(byte)?;
    }
    Ok(())
}

/// The piece that a line spells: `x` and an even number of digits, or `fill`, two digits and a
/// number.
pub(crate) fn piece_of(alloc: Global, line: &[u8]) -> Result<Result<Piece, Cause>, Memory>
    ensures { IfOk result (λ r. IsRead piece_bytes r (read_piece line.now)) }
{
    if let Some(digits) = rest_behind(line, b"x ") {
        return bytes_piece(alloc, digits);
    }
    let Some(rest) = rest_behind(line, b"fill ") else {
        return Ok(Err(Cause::Form));
    };
    Ok(fill_piece(rest))
}

/// The piece that digits are: an even number of them, for 1 to 2,048 bytes.
fn bytes_piece(alloc: Global, digits: &[u8]) -> Result<Result<Piece, Cause>, Memory>
    ensures { IfOk result (λ r. IsRead piece_bytes r (read_digits (parts_of digits.now))) }
{
    let count = digits.len() / 2;
    if count < 1 || count > MOST_BYTES {
        return Ok(Err(Cause::Form));
    }
    let mut bytes = vec![in alloc; 0; count]?;
    match hex::decode_to_slice(digits, bytes.as_mut_slice()) {
        Ok(()) => Ok(Ok(Piece::Bytes(bytes))),
        Err(_) => Ok(Err(Cause::Form)),
    }
}

/// The piece of the two digits of a byte and, after a space, how many times it is repeated: 1 to
/// 2,097,152 times.
fn fill_piece(text: &[u8]) -> Result<Piece, Cause>
    ensures { IsRead piece_bytes result (read_fill (parts_of text.now)) }
{
    let Some((byte, rest)) = byte_of(text) else {
        return Err(Cause::Form);
    };
    let Some((count, behind)) = next_number(rest) else {
        return Err(Cause::Form);
    };
    if !behind.is_empty() {
        return Err(Cause::Form);
    }
    if count < 1 || count > MOST_REPEATS {
        return Err(Cause::Number { value: count });
    }
    Ok(Piece::Fill { byte, count })
}

/// The byte of the two digits at the front of a text, and what follows them.
fn byte_of(text: &[u8]) -> Option<(u8, &[u8])>
    ensures found { IfSome result (λ x. (digits : List ℕ) × (decode_of digits ≡ Ok (x.0 ∷ []))
        × (text.now ≡ digits ++ x.1.now)) }
    ensures only { (b : ℕ) (digits rest : List ℕ) → decode_of digits ≡ Ok (b ∷ []) →
        text.now ≡ digits ++ rest →
        IsSomeAnd result (λ x. (x.0 ≡ b) × (x.1.now ≡ rest)) }
{
    let [high, low, rest @ ..] = text else {
        return None;
    };
    let byte = byte_from([*high, *low])?;
    Some((byte, rest))
}

/// The byte that two digits are.
fn byte_from(digits: [u8; 2]) -> Option<u8>
    ensures found { IfSome result (λ b. decode_of digits ≡ Ok (b ∷ [])) }
    ensures only { (b : ℕ) → decode_of digits ≡ Ok (b ∷ []) → result ≡ Some b }
{
    let mut byte = [0];
    match hex::decode_to_slice(digits.as_slice(), &mut byte) {
        Ok(()) => Some(byte[0]),
        Err(_) => None,
    }
}
