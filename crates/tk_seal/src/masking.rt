//! A text behind a pad: the sum of its plain form and the pad.
ghost use Rattle.std.specs.Prelude.{◌≡◌, ◌+◌, ◌-◌, ◌<◌, ◌≤◌, ◌++◌, ℕ, List, length, take, IsTrue};
ghost use Rattle.std.specs.Prelude.{IfSome, IfNone, replicate};
ghost use Rattle.tk_kernel.specs.Xor.{xor_bytes};
ghost use Rattle.tk_seal.specs.Texts.{is_allowed};
ghost use Rattle.tk_seal.specs.Seal.{plain, IsPlainForm};

use crate::{plain, plain_text};
use tk_kernel::xor_into;

/// Bytes of the longest pad.
pub const LONGEST_PAD: usize = 1008;

/// Writes the plain form of a text, masked by a pad.
pub fn mask(pad: &[u8], text: &[u8], out: &mut [u8])
    requires room { length out.old ≡ length pad.now }
    requires allowed { IsTrue (is_allowed text.now) }
    requires fits { length text.now + 2 ≤ length pad.now }
    requires short { length text.now < 65536 }
    ensures { out.new ≡ xor_bytes pad.now (plain (length pad.now) text.now) }
{
    plain(text, out);
    xor_into(out, pad);
}

/// The length of the text whose plain form is behind a pad, if there is one that may be sent: `out` has it,
/// and zeros after it. With none `out` is zeros.
pub fn unmask(pad: &[u8], masked: &[u8], out: &mut [u8]) -> Option<usize>
    requires whole { length masked.now ≡ length pad.now }
    requires room { length out.old + 2 ≡ length pad.now }
    requires short { length pad.now ≤ LONGEST_PAD }
    ensures found { IfSome result (λ n. n ≤ length out.new) }
    ensures text { IfSome result (λ n.
        IsPlainForm (xor_bytes pad.now masked.now) (take n out.new)) }
    ensures padded { IfSome result (λ n.
        out.new ≡ take n out.new ++ replicate (length out.new - n) 0) }
    ensures none { IfNone result
        ((text : List ℕ) → ¬ (IsPlainForm (xor_bytes pad.now masked.now) text)) }
    ensures zeros { IfNone result (out.new ≡ replicate (length out.new) 0) }
{
    let mut room = [0; LONGEST_PAD];
    let form = &mut room[..pad.len()];
    form.copy_from_slice(pad);
    xor_into(form, masked);
    out.fill(0);
    let Some(len) = plain_text(form) else {
        return None;
    };
    out[..len].copy_from_slice(&form[2..2 + len]);
    Some(len)
}
