//! The words of a key: of each of its streams, by their places.
ghost use Rattle.std.specs.Prelude.{◌≡◌, ◌+◌, ◌%◌, ◌<◌, ◌≤◌, ◌^◌, length, map};
ghost use Rattle.std.specs.List.{range_with_len, AllByRecursion};
ghost use Rattle.std.specs.Int.{div_ceil};
ghost use Rattle.tk_handle.specs.Handle.{Place, word, key_bytes};

use rand_chacha::ChaCha20Rng;
use rand_core::SeedableRng;
use rand_core::utils::{self, NextWord};
use std::marker::Model;

/// The words of a stream under a key, from a place on; seen as the place.
#[derive(Drop)]
pub struct Stream {
    key: [u8; 32],
    stream: u64,
    words: ChaCha20Rng,
}

impl Model for Stream {
    ghost use Rattle.std.specs.Prelude.{◌≡◌};
    ghost use Rattle.rand_chacha.specs.ChaCha.{key_of};
    ghost use Rattle.tk_handle.specs.Handle.{Place};

    ghost Value = { Place };

    ghost view = { λ s. record { key = s.key; stream = s.stream; place = s.words.word_pos } };

    ghost invariant = { λ s. (s.words.key ≡ key_of s.key) × (s.words.stream ≡ s.stream) };
}

impl Stream {
    /// The words from a place on.
    pub fn at(key: &[u8; 32], stream: u64, place: u64) -> Stream
        ensures { result ≡ record { key = key.now; stream = stream; place = place } }
    {
        let mut words = ChaCha20Rng::from_seed(*key);
        words.set_stream(stream);
        words.set_word_pos(u128::from(place));
        Stream {
            key: *key,
            stream,
            words,
        }
    }

    /// The next word.
    pub fn next_word(&mut self) -> u32
        requires { self.old.place < 2 ^ 34 }
        ensures word { result ≡ word self.old.key self.old.stream self.old.place }
        ensures next { self.new ≡ record self.old { place = self.old.place + 1 } }
    {
        self.words.next_word()
    }

    /// Passes words over.
    pub fn skip(&mut self, count: u32)
        requires { self.old.place < 2 ^ 33 }
        ensures { self.new ≡ record self.old { place = self.old.place + count } }
    {
        for _ in 0..count {
            self.next_word();
        }
    }

    /// Writes what is left of the next words when each is divided by `below`.
    pub fn remainders(&mut self, below: u32, out: &mut [u32])
        requires some { 0 < below }
        requires low { self.old.place < 2 ^ 33 }
        requires short { length out.old ≤ 65536 }
        ensures words { let at = self.old in out.new
            ≡ map (λ i. word at.key at.stream i % below) (range_with_len at.place (length out.old)) }
        ensures below { AllByRecursion (λ rest. rest < below) out.new }
        ensures next { self.new ≡ record self.old { place = self.old.place + length out.old } }
    {
        for i in 0..out.len() {
            out[i] = self.next_word() % below;
        }
    }

    /// Writes the bytes of the next words, each word's least byte first.
    pub fn fill(&mut self, out: &mut [u8])
        requires low { self.old.place < 2 ^ 33 }
        requires short { length out.old ≤ 65536 }
        ensures bytes { let at = self.old in
            out.new ≡ key_bytes at.key at.stream at.place (length out.old) }
        ensures next { let words = div_ceil (length out.old) 4 in
            self.new ≡ record self.old { place = self.old.place + words } }
    {
        utils::fill_bytes_via_u32(&mut self.words, out);
    }
}

/// The word at a place of a stream.
pub fn word(key: &[u8; 32], stream: u64, place: u64) -> u32
    requires { place < 2 ^ 32 }
    ensures { result ≡ word key.now stream place }
{
    Stream::at(key, stream, place).next_word()
}

/// Writes what is left of the words from a place on when each is divided by `below`.
pub fn remainders(key: &[u8; 32], stream: u64, place: u64, below: u32, out: &mut [u32])
    requires some { 0 < below }
    requires low { place < 2 ^ 32 }
    requires short { length out.old ≤ 65536 }
    ensures words { out.new
        ≡ map (λ i. word key.now stream i % below) (range_with_len place (length out.old)) }
    ensures below { AllByRecursion (λ rest. rest < below) out.new }
{
    Stream::at(key, stream, place).remainders(below, out);
}

/// Writes the bytes of the words from a place on, each word's least byte first.
pub fn fill(key: &[u8; 32], stream: u64, place: u64, out: &mut [u8])
    requires low { place < 2 ^ 32 }
    requires short { length out.old ≤ 65536 }
    ensures { out.new ≡ key_bytes key.now stream place (length out.old) }
{
    Stream::at(key, stream, place).fill(out);
}
