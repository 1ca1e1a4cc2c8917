ghost use Rattle.std.specs.Prelude.{◌≡◌, ◌+◌, ◌-◌, ◌*◌, ◌%◌, ◌<◌, ◌≤◌, ◌==◌, cond, length};
ghost use Rattle.std.specs.Prelude.{◌++◌, take, drop, flat_map};
ghost use Rattle.tk_shape.specs.Lengths.{seed_len, vector_len};
ghost use Rattle.tk_kernel.specs.Pieces.{pieces};
ghost use Rattle.tk_handle.specs.Handle.{word, key_bytes, expanded};

use crate::{Draws, LogSeeds};
use tk_handle::{Handle, Stream, fill};
use tk_shape::Shape;

/// The words of keys: each log's handle, and each client's seed.
#[derive(Drop)]
pub struct KeyedDraws {
    shape: Shape,
    handles: Vec<Handle>,
    seeds: Vec<[u8; 32]>,
    ghost handle_each: { length handles.items ≡ shape.logs },
    ghost seed_each: { length seeds.items ≡ shape.clients },
}

impl KeyedDraws {
    ghost use Rattle.tk_words.specs.Words.{keyed, handle_at, seed_at};

    /// The words of a handle for each log and a seed for each client.
    pub fn new(shape: &Shape, handles: Vec<Handle>, seeds: Vec<[u8; 32]>) -> KeyedDraws
        requires handle_each { length handles.items ≡ shape.now.logs }
        requires seed_each { length seeds.items ≡ shape.now.clients }
        ensures shape { ⟦<KeyedDraws as Draws>⟧.shape result ≡ shape.now }
        ensures book { ⟦<KeyedDraws as Draws>⟧.book result ≡ keyed handles.items seeds.items }
    {
        KeyedDraws {
            shape: *shape,
            handles,
            seeds,
        }
    }

    fn handle(&self, log: u32) -> &Handle
        requires { log < self.now.shape.logs }
        ensures { result.now ≡ handle_at self.now.handles.items log }
    {
        &self.handles[log as usize]
    }

    fn seed(&self, client: u32) -> &[u8; 32]
        requires { client < self.now.shape.clients }
        ensures { result.now ≡ seed_at self.now.seeds.items client }
    {
        &self.seeds[client as usize]
    }
}

impl Draws for KeyedDraws {
    ghost use Rattle.tk_words.specs.Words.{keyed};
    ghost use Rattle.tk_words.specs.OpeningLaws.{opens_what_seals, opens_sealed};

    ghost shape = { λ draws. draws.shape };

    ghost book = { λ draws. keyed draws.handles.items draws.seeds.items };

    fn pair(&self, log: u32, number: u32) -> (u32, u32) {
        tk_choice::pair(self.handle(log), number, self.shape.buckets)
    }

    fn hits(&self, log: u32, number: u32, out: &mut [u32]) {
        tk_choice::hits(self.handle(log), number, self.shape.filter_bits, out);
    }

    fn pair_and_hits(&self, log: u32, number: u32, hits: &mut [u32]) -> (u32, u32) {
        let shape = &self.shape;
        tk_choice::pair_and_hits(
            self.handle(log),
            number,
            shape.buckets,
            shape.filter_bits,
            hits,
        )
    }

    fn log_seeds(&self, log: u32) -> Option<LogSeeds> {
        let handle = self.handle(log);
        Some(LogSeeds {
            first: handle.seed1,
            second: handle.seed2,
        })
    }

    fn seal(&self, log: u32, number: u32, text: &[u8], out: &mut [u8]) {
        tk_seal::seal(self.handle(log), number, text, out);
    }

    fn open(&self, log: u32, number: u32, block: &[u8], out: &mut [u8]) -> Option<usize> {
        tk_seal::open(self.handle(log), number, block, out)
    }

    fn fresh_write(
        &self,
        client: u32,
        turn: u32,
        hits: &mut [u32],
        block: &mut [u8],
    ) -> (u32, u32) {
        let mut words = Stream::at(self.seed(client), 2 * u64::from(turn), 0);
        let pair = next_pair(&mut words, self.shape.buckets);
        words.remainders(self.shape.filter_bits, hits);
        words.skip(14 - self.shape.hits);
        words.fill(block);
        pair
    }

    fn fresh_read(
        &self,
        client: u32,
        turn: u32,
        seeds: &mut [u8],
        vectors: &mut [u8],
    ) -> (u32, u32) {
        let mut words = Stream::at(self.seed(client), 2 * u64::from(turn) + 1, 0);
        let pair = next_pair(&mut words, self.shape.buckets);
        words.skip(14);
        fill_read(&self.shape, &mut words, seeds, vectors);
        pair
    }

    fn shows(&self) -> bool {
        false
    }

    ghost serves = { λ draws. (draws.handle_each, draws.seed_each) };

    ghost opens_what_seals = { λ draws.
        opens_what_seals draws.shape (keyed draws.handles.items draws.seeds.items)
        (draws.handle_each, draws.seed_each) };

    ghost opens_sealed = { λ draws.
        opens_sealed draws.shape (keyed draws.handles.items draws.seeds.items)
        (draws.handle_each, draws.seed_each) };
}

// The two buckets at the front of a stream.
fn next_pair(words: &mut Stream, buckets: u32) -> (u32, u32)
    requires some { 0 < buckets }
    requires front { words.old.place ≡ 0 }
    ensures pair { let at = words.old in
        result ≡ (word at.key at.stream 0 % buckets, word at.key at.stream 1 % buckets) }
    ensures first_in { result.0 < buckets }
    ensures second_in { result.1 < buckets }
    ensures next { words.new ≡ record words.old { place = 2 } }
{
    let mut pair = [0; 2];
    words.remainders(buckets, &mut pair);
    (pair[0], pair[1])
}

// The seeds and the vectors of a read, from a place of a stream on. In format 1 there are no seeds, and the vectors
// stand in the stream; in format 2 the seeds do, and expand to the vectors.
fn fill_read(shape: &Shape, words: &mut Stream, seeds: &mut [u8], vectors: &mut [u8])
    requires front { words.old.place ≡ 16 }
    requires seeds_room { length seeds.old ≡ 2 * (shape.now.servers - 1) * seed_len shape.now }
    requires vectors_room { length vectors.old ≡ 2 * (shape.now.servers - 1) * vector_len shape.now }
    ensures seeds { let at = words.old in
        seeds.new ≡ key_bytes at.key at.stream 16 (length seeds.old) }
    ensures vectors { let at = words.old in vectors.new ≡ cond (shape.now.format == 2)
        (flat_map (expanded (vector_len shape.now))
        (pieces 32 (2 * (shape.now.servers - 1)) seeds.new))
        (key_bytes at.key at.stream 16 (length vectors.old)) }
{
    if shape.format == 2 {
        words.fill(seeds);
        let count = 2 * (shape.servers as usize - 1);
        expand_each(seeds, count, shape.vector_len() as usize, vectors);
    } else {
        words.fill(vectors);
    }
}

// What so many seeds expand to, each in so many bytes, one after the other.
fn expand_each(seeds: &[u8], count: usize, size: usize, out: &mut [u8])
    requires whole { length seeds.now ≡ count * 32 }
    requires room { length out.old ≡ count * size }
    requires short { size ≤ 65536 }
    ensures { out.new ≡ flat_map (expanded size) (pieces 32 count seeds.now) }
{
    let mut rest = seeds;
    'seeds: for i in 0..count {
        let (seed, after) = rest.split_at(32);
        expand(seed, i * size, size, out);
        rest = after;
    }
}

// Writes what a seed expands to, in so many bytes, over those from a place on.
fn expand(seed: &[u8], at: usize, size: usize, out: &mut [u8])
    requires whole { length seed.now ≡ 32 }
    requires room { at + size ≤ length out.old }
    requires short { size ≤ 65536 }
    ensures { out.new ≡ take at out.old ++ expanded size seed.now ++ drop (at + size) out.old }
{
    let mut key = [0; 32];
    key.copy_from_slice(seed);
    fill(&key, 0, 0, &mut out[at..at + size]);
}
