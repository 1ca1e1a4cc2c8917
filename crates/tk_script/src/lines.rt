ghost use Rattle.std.specs.Prelude.{◌≡◌, ◌≢◌, ◌<◌, ◌↔◌, ◌∷◌, ℕ, codes, IsTrue, [], length};
ghost use Rattle.std.specs.Prelude.{slice_index, IfSome, IfNone};
ghost use Rattle.tk_script.specs.Grammar.{lines_of};

use memchr::memchr;

/// Where a byte stands first in a text: for one that is near.
pub(crate) fn place_of(text: &[u8], byte: u8) -> Option<usize>
    ensures within { IfSome result (λ i. i < length text.now) }
    ensures at { IfSome result (λ i. slice_index text.now i ≡ byte) }
    ensures first { IfSome result (λ i. (k : ℕ) → k < i → slice_index text.now k ≢ byte) }
    ensures none { IfNone result ((k : ℕ) → k < length text.now → slice_index text.now k ≢ byte) }
{
    for (i, here) in text.iter().enumerate() {
        if *here == byte {
            return Some(i);
        }
    }
    None
}

/// Where the first line feed stands in a text, which may be far.
fn line_feed(text: &[u8]) -> Option<usize>
    ensures within { IfSome result (λ i. i < length text.now) }
    ensures at { IfSome result (λ i. slice_index text.now i ≡ 10) }
    ensures first { IfSome result (λ i. (k : ℕ) → k < i → slice_index text.now k ≢ 10) }
    ensures none { IfNone result ((k : ℕ) → k < length text.now → slice_index text.now k ≢ 10) }
{
    memchr(b'\n', text)
}

/// The first line of a text, without its line feed, and the text after it.
pub fn next_line(text: &[u8]) -> Option<(&[u8], &[u8])>
    ensures line { IfSome result (λ x. lines_of text.now ≡ x.0.now ∷ lines_of x.1.now) }
    ensures shorter { IfSome result (λ x. length x.1.now < length text.now) }
    ensures none { IfNone result (lines_of text.now ≡ []) }
{
    if text.is_empty() {
        return None;
    }
    match line_feed(text) {
        Some(end) => Some((&text[..end], &text[end + 1..])),
        None => Some((text, &text[text.len()..])),
    }
}

/// Whether a line is the one that ends a section.
pub(crate) fn is_end(line: &[u8]) -> bool
    ensures { IsTrue result ↔ (line.now ≡ codes "end") }
{
    line == b"end".as_slice()
}
