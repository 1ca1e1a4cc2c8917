ghost use Rattle.std.specs.Prelude.{◌≡◌, ◌↔◌, false, length, IsTrue, IsNone, IfSome};
ghost use Rattle.std.specs.List.{list_all, prefix_len};
ghost use Rattle.tk_seal.specs.Texts.{is_allowed, is_printable, allowed_front, IsAllowedUpTo};

use simdutf8::is_utf8_baseline;
use std::str;

/// None where the text may be sent: it is UTF-8 without bytes below 0x20 and without 0x7F. Else the length in
/// bytes of its longest front that may be.
pub fn allowed(text: &[u8]) -> Option<usize>
    ensures none { IsNone result ↔ (IsTrue (is_allowed text.now)) }
    ensures longest { IfSome result (IsAllowedUpTo text.now) }
    ensures front { IfSome result (λ n. n ≡ allowed_front (length text.now) text.now) }
{
    if is_allowed(text) {
        return None;
    }
    Some(allowed_len(text))
}

// Whether a text may be sent. The test for UTF-8 is the one for any processor: a program that is built without proof
// is for any.
fn is_allowed(text: &[u8]) -> bool
    ensures { result ≡ is_allowed text.now }
{
    all_printable(text) && is_utf8_baseline(text)
}

// Whether each byte is printable. No branch depends on a byte, so that many can be tested at once.
fn all_printable(text: &[u8]) -> bool
    ensures { result ≡ list_all is_printable text.now }
{
    text.iter()
        .fold(true, |all, byte| all & is_printable(*byte))
}

// The length of the longest front that may be sent, of a text that may not.
fn allowed_len(text: &[u8]) -> usize
    requires { is_allowed text.now ≡ false }
    ensures { IsAllowedUpTo text.now result }
{
    let printable = printable_len(text);
    match str::from_utf8(&text[..printable]) {
        Ok(_) => printable,
        Err(e) => e.valid_up_to(),
    }
}

// How many bytes stand in front of the first that may not be sent.
fn printable_len(text: &[u8]) -> usize
    ensures { result ≡ prefix_len is_printable text.now }
{
    text.iter().take_while(|b| is_printable(**b)).count()
}

fn is_printable(byte: u8) -> bool
    ensures { result ≡ is_printable byte }
{
    byte >= 0x20 && byte != 0x7f
}
