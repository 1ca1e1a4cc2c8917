ghost use Rattle.std.specs.Prelude.{◌≡◌, ◌<◌, ◌^◌, [], ◌∷◌, ◌++◌, ℕ, List, map, decimal, length};
ghost use Rattle.std.specs.Prelude.{IfOk, IfSome, IsSomeAnd};
ghost use Rattle.std.specs.List.{AllByRecursion};
ghost use Rattle.tk_script.specs.Fields.{IsFieldEnd, LacksSpace};
ghost use Rattle.tk_script.specs.Grammar.{fields};

use crate::lines::place_of;
use crate::numbers::number_of;
use std::alloc::Global;
use tk_shape::Memory;

/// What follows words at the front of a line.
pub(crate) fn rest_behind<'a>(line: &'a [u8], words: &[u8]) -> Option<&'a [u8]>
    ensures found { IfSome result (λ rest. line.now ≡ words.now ++ rest.now) }
    ensures only { (rest : List ℕ) → line.now ≡ words.now ++ rest →
        IsSomeAnd result (λ x. x.now ≡ rest) }
{
    if line.len() < words.len() {
        return None;
    }
    if &line[..words.len()] != words {
        return None;
    }
    Some(&line[words.len()..])
}

/// What follows a space at the front of a text.
fn after_space(text: &[u8]) -> Option<&[u8]>
    ensures found { IfSome result (λ rest. text.now ≡ 0x20 ∷ rest.now) }
    ensures only { (rest : List ℕ) → text.now ≡ 0x20 ∷ rest →
        IsSomeAnd result (λ x. x.now ≡ rest) }
{
    match text {
        [b' ', rest @ ..] => Some(rest),
        _ => None,
    }
}

/// The field at the front of a text, up to its first space, and what follows it.
fn next_field(text: &[u8]) -> (&[u8], &[u8])
    ensures whole { text.now ≡ result.0.now ++ result.1.now }
    ensures end { IsFieldEnd result.1.now }
    ensures field { LacksSpace result.0.now }
{
    match place_of(text, b' ') {
        Some(end) => (&text[..end], &text[end..]),
        None => (text, &text[text.len()..]),
    }
}

/// The number after one space, and what follows it: nothing, or a space and more.
pub(crate) fn next_number(text: &[u8]) -> Option<(u32, &[u8])>
    ensures found { IfSome result (λ x. text.now ≡ 0x20 ∷ (decimal x.0 ++ x.1.now)) }
    ensures end { IfSome result (λ x. IsFieldEnd x.1.now) }
    ensures small { IfSome result (λ x. x.0 < 2 ^ 32) }
    ensures shorter { IfSome result (λ x. length x.1.now < length text.now) }
    ensures only { (n : ℕ) (rest : List ℕ) → n < 2 ^ 32 → IsFieldEnd rest →
        text.now ≡ 0x20 ∷ (decimal n ++ rest) →
        IsSomeAnd result (λ x. (x.0 ≡ n) × (x.1.now ≡ rest)) }
{
    let text = after_space(text)?;
    let (field, rest) = next_field(text);
    let number = number_of(field)?;
    Some((number, rest))
}

/// Three numbers after a word, and all after the space that follows them.
pub(crate) fn three_behind<'a>(word: &[u8], line: &'a [u8]) -> Option<(u32, u32, u32, &'a [u8])>
    ensures found { IfSome result (λ x. line.now
        ≡ fields (word.now ∷ decimal x.0 ∷ decimal x.1 ∷ decimal x.2 ∷ x.3.now ∷ [])) }
    ensures first { IfSome result (λ x. x.0 < 2 ^ 32) }
    ensures second { IfSome result (λ x. x.1 < 2 ^ 32) }
    ensures third { IfSome result (λ x. x.2 < 2 ^ 32) }
    ensures only { (a b c : ℕ) (text : List ℕ) → a < 2 ^ 32 → b < 2 ^ 32 → c < 2 ^ 32 →
        line.now ≡ fields (word.now ∷ decimal a ∷ decimal b ∷ decimal c ∷ text ∷ []) →
        IsSomeAnd result (λ x. (x.0 ≡ a) × (x.1 ≡ b) × (x.2 ≡ c) × (x.3.now ≡ text)) }
{
    let rest = rest_behind(line, word)?;
    let (first, rest) = next_number(rest)?;
    let (second, rest) = next_number(rest)?;
    let (third, rest) = next_number(rest)?;
    let text = after_space(rest)?;
    Some((first, second, third, text))
}

/// The numbers of a line that is a word and numbers, with one space in front of each.
pub(crate) fn numbers_behind(
    alloc: Global,
    word: &[u8],
    line: &[u8],
) -> Result<Option<Vec<u32>>, Memory>
    ensures found { IfOk result (λ o. IfSome o (λ ns.
        line.now ≡ fields (word.now ∷ map decimal ns.items))) }
    ensures words { IfOk result (λ o. IfSome o (λ ns. AllByRecursion (λ n. n < 2 ^ 32) ns.items)) }
    ensures only { (ns : List ℕ) → AllByRecursion (λ n. n < 2 ^ 32) ns →
        line.now ≡ fields (word.now ∷ map decimal ns) →
        IfOk result (λ o. IsSomeAnd o (λ v. v.items ≡ ns)) }
{
    let Some(text) = rest_behind(line, word) else {
        return Ok(None);
    };
    let mut numbers = Vec::new(alloc);
    let mut rest = text;
    'numbers: while !rest.is_empty() {
        let Some((number, behind)) = next_number(rest) else {
            return Ok(None);
        };
        numbers.push(number)?;
        rest = behind;
    }
    Ok(Some(numbers))
}
