//! The plain form of a text: its length as 16 bits, high byte first, the text, and zeros.
ghost use Rattle.std.specs.Prelude.{◌≡◌, ◌+◌, ◌<◌, ◌≤◌, ℕ, List, length, take, drop};
ghost use Rattle.std.specs.Prelude.{replicate, IsTrue, ◌↔◌, IfSome, IfNone};
ghost use Rattle.tk_seal.specs.Texts.{is_allowed};
ghost use Rattle.tk_seal.specs.Seal.{plain, IsPlainForm};

use crate::allowed;

/// Writes the plain form of a text, with as many zeros as there is room for.
pub fn plain(text: &[u8], out: &mut [u8])
    requires allowed { IsTrue (is_allowed text.now) }
    requires fits { length text.now + 2 ≤ length out.old }
    requires short { length text.now < 65536 }
    ensures { out.new ≡ plain (length out.old) text.now }
{
    let (len, rest) = out.split_at_mut(2);
    let (front, zeros) = rest.split_at_mut(text.len());
    len.copy_from_slice(&(text.len() as u16).to_be_bytes());
    front.copy_from_slice(text);
    zeros.fill(0);
}

/// The length of the text that these bytes are the plain form of, or None where there is no such text that may be sent.
pub fn plain_text(bytes: &[u8]) -> Option<usize>
    ensures text { IfSome result (λ n. IsPlainForm bytes.now (take n (drop 2 bytes.now))) }
    ensures len { IfSome result (λ n. n + 2 ≤ length bytes.now) }
    ensures none { IfNone result ((text : List ℕ) → ¬ (IsPlainForm bytes.now text)) }
{
    if bytes.len() < 2 {
        return None;
    }
    let len = usize::from(u16::from_be_bytes([bytes[0], bytes[1]]));
    if bytes.len() < 2 + len {
        return None;
    }
    let (text, zeros) = bytes[2..].split_at(len);
    if allowed(text).is_some() || !is_zeros(zeros) {
        return None;
    }
    Some(len)
}

fn is_zeros(bytes: &[u8]) -> bool
    ensures { IsTrue result ↔ (bytes.now ≡ replicate (length bytes.now) 0) }
{
    bytes.iter().all(|b| *b == 0)
}
