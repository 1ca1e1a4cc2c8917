ghost use Rattle.std.specs.Prelude.{◌≡◌, ◌+◌, ◌-◌, ◌≤◌, ◌++◌, length, take, IsTrue, Some, None};
ghost use Rattle.std.specs.Prelude.{IfSome, IfNone, replicate};
ghost use Rattle.tk_seal.specs.Texts.{is_allowed};
ghost use Rattle.tk_handle.specs.Handle.{key_bytes};
ghost use Rattle.tk_seal.specs.Seal.{keyed_tag, keyed_sealed, keyed_opened};

use crate::{LONGEST_PAD, hmac, mask, unmask};
use tk_handle::{Handle, Stream};

/// Seals a text as message `number` of a log: its plain form is masked by a pad, and the tag of what is
/// masked stands after.
pub fn seal(handle: &Handle, number: u32, text: &[u8], out: &mut [u8])
    requires low { 24 ≤ length out.old }
    requires high { length out.old ≤ 1024 }
    requires allowed { IsTrue (is_allowed text.now) }
    requires fits { length text.now + 18 ≤ length out.old }
    ensures { out.new ≡ keyed_sealed (length out.old) handle.now number text.now }
{
    let (key, mut words) = message_words(handle, number);
    let mut room = [0; LONGEST_PAD];
    let pad = &mut room[..out.len() - 16];
    words.fill(pad);
    let (masked, mark) = out.split_at_mut(pad.len());
    mask(pad, text, masked);
    mark.copy_from_slice(&tag(handle, number, &key, masked));
}

/// The length of the text that seals to a block as message `number` of a log, if there is one: `out` has it, and zeros
/// after it. With none `out` is zeros.
pub fn open(handle: &Handle, number: u32, block: &[u8], out: &mut [u8]) -> Option<usize>
    requires low { 24 ≤ length block.now }
    requires high { length block.now ≤ 1024 }
    requires room { length out.old + 18 ≡ length block.now }
    ensures found { IfSome result (λ n. n ≤ length out.new) }
    ensures text { IfSome result (λ n.
        keyed_opened handle.now number block.now ≡ Some (take n out.new)) }
    ensures padded { IfSome result (λ n.
        out.new ≡ take n out.new ++ replicate (length out.new - n) 0) }
    ensures none { IfNone result (keyed_opened handle.now number block.now ≡ None) }
    ensures zeros { IfNone result (out.new ≡ replicate (length out.new) 0) }
{
    let (masked, mark) = block.split_at(block.len() - 16);
    let (key, mut words) = message_words(handle, number);
    if mark != tag(handle, number, &key, masked).as_slice() {
        out.fill(0);
        return None;
    }
    let mut room = [0; LONGEST_PAD];
    let pad = &mut room[..masked.len()];
    words.fill(pad);
    unmask(pad, masked, out)
}

// The key of a message's tag, and the words that the bytes of its pad come from.
fn message_words(handle: &Handle, number: u32) -> ([u8; 32], Stream)
    ensures key { result.0 ≡ key_bytes handle.now.key number 0 32 }
    ensures words { result.1 ≡ record { key = handle.now.key; stream = number; place = 16 } }
{
    let mut words = Stream::at(&handle.key, u64::from(number), 0);
    let mut key = [0; 32];
    words.fill(&mut key);
    words.skip(8);
    (key, words)
}

// The leftmost 16 bytes of the digest of the log, the number and what is masked, under the key of the tag.
fn tag(handle: &Handle, number: u32, key: &[u8; 32], masked: &[u8]) -> [u8; 16]
    requires key { key.now ≡ key_bytes handle.now.key number 0 32 }
    requires short { length masked.now ≤ LONGEST_PAD }
    ensures { result ≡ keyed_tag handle.now number masked.now }
{
    let mut head = [0; 16];
    let (id, place) = head.split_at_mut(8);
    id.copy_from_slice(&handle.id.to_be_bytes());
    place.copy_from_slice(&u64::from(number).to_be_bytes());
    let mut tag = [0; 16];
    tag.copy_from_slice(&hmac(key, &head, masked)[..16]);
    tag
}
