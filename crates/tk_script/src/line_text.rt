ghost use Rattle.std.specs.Prelude.{◌≡◌, ◌++◌, ◌∷◌, [], map, decimal, OnOk, OnErr};
ghost use Rattle.tk_script.specs.Grammar.{fields};
ghost use Rattle.tk_script.specs.Printing.{text_of, bytes_line, number_fields};

use std::alloc::Global;
use tk_shape::Memory;

/// Appends the plain decimal of a number, or nothing if memory runs out. The other calls may
/// then have appended a part of what they append.
pub fn push_number(_alloc: Global, number: u64, out: &mut Vec<u8>) -> Result<(), Memory>
    ensures ok { OnOk result (out.new.items ≡ out.old.items ++ decimal number) }
    ensures err { OnErr result (out.new.items ≡ out.old.items) }
{
    let mut digits = itoa::Buffer::new();
    out.extend_from_slice(digits.format(number).as_bytes())?;
    Ok(())
}

/// Appends a number with a space in front.
pub fn push_field(alloc: Global, number: u64, out: &mut Vec<u8>) -> Result<(), Memory>
    ensures ok { OnOk result (out.new.items ≡ out.old.items ++ 0x20 ∷ decimal number) }
{
    out.push(b' ')?;
    push_number(alloc, number, out)
}

/// Appends numbers, each with a space in front.
pub(crate) fn push_fields(alloc: Global, numbers: &[u32], out: &mut Vec<u8>) -> Result<(), Memory>
    ensures ok { OnOk result (out.new.items ≡ out.old.items ++ number_fields numbers.now) }
{
    for number in numbers {
        push_field(alloc, *number as u64, out)?;
    }
    Ok(())
}

/// Appends a word, and numbers with a space in front of each.
pub fn push_numbers(
    alloc: Global,
    word: &[u8],
    numbers: &[u64],
    out: &mut Vec<u8>,
) -> Result<(), Memory>
    ensures ok { OnOk result (out.new.items
        ≡ out.old.items ++ fields (word.now ∷ map decimal numbers.now)) }
{
    out.extend_from_slice(word)?;
    for number in numbers {
        push_field(alloc, *number, out)?;
    }
    Ok(())
}

/// Appends a line.
pub fn push_line(line: &[u8], out: &mut Vec<u8>) -> Result<(), Memory>
    ensures ok { OnOk result (out.new.items ≡ out.old.items ++ text_of (line.now ∷ [])) }
{
    out.extend_from_slice(line)?;
    out.push(b'\n')?;
    Ok(())
}

/// Appends the line of a word and numbers.
pub fn push_numbers_line(
    alloc: Global,
    word: &[u8],
    numbers: &[u64],
    out: &mut Vec<u8>,
) -> Result<(), Memory>
    ensures ok { OnOk result (out.new.items
        ≡ out.old.items ++ text_of (fields (word.now ∷ map decimal numbers.now) ∷ [])) }
{
    push_numbers(alloc, word, numbers, out)?;
    out.push(b'\n')?;
    Ok(())
}

/// Appends the line of a word and bytes.
pub(crate) fn push_bytes_line(
    alloc: Global,
    word: &[u8],
    bytes: &[u8],
    out: &mut Vec<u8>,
) -> Result<(), Memory>
    ensures ok { OnOk result (out.new.items
        ≡ out.old.items ++ text_of (bytes_line word.now bytes.now ∷ [])) }
{
    let digits = hex::encode(alloc, bytes)?;
    out.extend_from_slice(word)?;
    out.push(b' ')?;
    push_line(digits.as_bytes(), out)
}
