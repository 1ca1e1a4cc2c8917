ghost use Rattle.std.specs.Prelude.{◌≡◌, ◌<◌, ◌≤◌, ◌+◌, ◌-◌, ◌*◌, ◌++◌, length, take, IsTrue, Some};
ghost use Rattle.std.specs.Prelude.{None, ℕ, IfSome, IfNone, replicate};
ghost use Rattle.std.specs.List.{AllByRecursion};
ghost use Rattle.tk_shape.specs.declared.shape.Shape.{Shape};
ghost use Rattle.tk_shape.specs.Lengths.{turn_count, seed_len, vector_len};
ghost use Rattle.tk_seal.specs.Texts.{is_allowed};
ghost use Rattle.tk_words.specs.Words.{WordBook, IsBook, pair_of, pair_under, hits_of, hits_under};
ghost use Rattle.tk_words.specs.Words.{sealed, opened, fresh_write, fresh_pair, words_of};
ghost use Rattle.tk_words.specs.Words.{fresh_seeds, fresh_vectors, joined, shows_vectors};
ghost use Rattle.tk_words.specs.Opening.{OpensWhatSeals, OpensSealed};

use crate::LogSeeds;

/// The words that a client uses, over one shape. Logs, clients and turns count from 0.
pub trait Draws: Sync {
    ghost shape: { Self → Shape };

    ghost book: { Self → WordBook };

    /// The two buckets of a number of a log.
    fn pair(&self, log: u32, number: u32) -> (u32, u32)
        requires log_in { log < (shape self.now).logs }
        requires number_in { number < turn_count (shape self.now) }
        ensures pair { result ≡ pair_of (shape self.now) (book self.now) log number }
        ensures first_in { result.0 < (shape self.now).buckets }
        ensures second_in { result.1 < (shape self.now).buckets };

    /// The filter positions of a number of a log.
    fn hits(&self, log: u32, number: u32, out: &mut [u32])
        requires log_in { log < (shape self.now).logs }
        requires number_in { number < turn_count (shape self.now) }
        requires room { length out.old ≡ (shape self.now).hits }
        ensures hits { out.new ≡ hits_of (shape self.now) (book self.now) log number }
        ensures hits_in { AllByRecursion (λ h. h < (shape self.now).filter_bits) out.new };

    /// The two buckets and the filter positions of a number of a log, as `pair` and `hits` give
    /// them.
    fn pair_and_hits(&self, log: u32, number: u32, hits: &mut [u32]) -> (u32, u32)
        requires log_in { log < (shape self.now).logs }
        requires number_in { number < turn_count (shape self.now) }
        requires room { length hits.old ≡ (shape self.now).hits }
        ensures pair { result ≡ pair_of (shape self.now) (book self.now) log number }
        ensures first_in { result.0 < (shape self.now).buckets }
        ensures second_in { result.1 < (shape self.now).buckets }
        ensures hits { hits.new ≡ hits_of (shape self.now) (book self.now) log number }
        ensures hits_in { AllByRecursion (λ h. h < (shape self.now).filter_bits) hits.new };

    /// The seeds that the buckets and the filter positions of all numbers of a log come from; none
    /// where these are drawn number by number. While the seeds are the same, so are those, whatever
    /// the book.
    fn log_seeds(&self, log: u32) -> Option<LogSeeds>
        requires log_in { log < (shape self.now).logs }
        ensures pairs { let run = shape self.now in IfSome result (λ seeds. (s : ℕ)
            → pair_of run (book self.now) log s ≡ pair_under run.buckets seeds s) }
        ensures hits { let run = shape self.now in IfSome result (λ seeds. (s : ℕ)
            → hits_of run (book self.now) log s
            ≡ hits_under run.filter_bits run.hits seeds.second s) };

    /// Seals a text for a number of a log.
    fn seal(&self, log: u32, number: u32, text: &[u8], out: &mut [u8])
        requires log_in { log < (shape self.now).logs }
        requires number_in { number < turn_count (shape self.now) }
        requires room { length out.old ≡ (shape self.now).block }
        requires allowed { IsTrue (is_allowed text.now) }
        requires fits { length text.now + 18 ≤ (shape self.now).block }
        ensures { out.new
            ≡ sealed (words_of (shape self.now) (book self.now)) log number text.now };

    /// The length of the text that seals to a block, if there is one: `out` has it, and zeros after it. With
    /// none `out` is zeros.
    fn open(&self, log: u32, number: u32, block: &[u8], out: &mut [u8]) -> Option<usize>
        requires log_in { log < (shape self.now).logs }
        requires number_in { number < turn_count (shape self.now) }
        requires whole { length block.now ≡ (shape self.now).block }
        requires room { length out.old + 18 ≡ (shape self.now).block }
        ensures found { IfSome result (λ n. n ≤ length out.new) }
        ensures text { IfSome result (λ n.
            opened (words_of (shape self.now) (book self.now)) log number block.now
            ≡ Some (take n out.new)) }
        ensures padded { IfSome result (λ n.
            out.new ≡ take n out.new ++ replicate (length out.new - n) 0) }
        ensures none { IfNone result
            (opened (words_of (shape self.now) (book self.now)) log number block.now ≡ None) }
        ensures zeros { IfNone result (out.new ≡ replicate (length out.new) 0) };

    /// The two buckets, the filter positions and the block of a write that holds no text.
    fn fresh_write(&self, client: u32, turn: u32, hits: &mut [u32], block: &mut [u8]) -> (u32, u32)
        requires client_in { client < (shape self.now).clients }
        requires turn_in { turn < turn_count (shape self.now) }
        requires hits_room { length hits.old ≡ (shape self.now).hits }
        requires block_room { length block.old ≡ (shape self.now).block }
        ensures first { result.0
            ≡ (fresh_write (shape self.now) (book self.now) turn client).first }
        ensures second { result.1
            ≡ (fresh_write (shape self.now) (book self.now) turn client).second }
        ensures hits { hits.new ≡ (fresh_write (shape self.now) (book self.now) turn client).hits }
        ensures block { block.new
            ≡ (fresh_write (shape self.now) (book self.now) turn client).block }
        ensures first_in { result.0 < (shape self.now).buckets }
        ensures second_in { result.1 < (shape self.now).buckets }
        ensures hits_in { AllByRecursion (λ h. h < (shape self.now).filter_bits) hits.new };

    /// The two buckets of a dummy read, and the seeds and the drawn vectors of any read: for the first
    /// bucket one for each server but the last, and then likewise for the second. In format 1 the seeds are empty.
    fn fresh_read(&self, client: u32, turn: u32, seeds: &mut [u8], vectors: &mut [u8]) -> (u32, u32)
        requires client_in { client < (shape self.now).clients }
        requires turn_in { turn < turn_count (shape self.now) }
        requires seeds_room { length seeds.old
            ≡ 2 * ((shape self.now).servers - 1) * seed_len (shape self.now) }
        requires vectors_room { length vectors.old
            ≡ 2 * ((shape self.now).servers - 1) * vector_len (shape self.now) }
        ensures pair { result ≡ fresh_pair (shape self.now) (book self.now) turn client }
        ensures seeds { seeds.new
            ≡ joined (fresh_seeds (shape self.now) (book self.now) turn client) }
        ensures vectors { vectors.new
            ≡ joined (fresh_vectors (shape self.now) (book self.now) turn client) }
        ensures first_in { result.0 < (shape self.now).buckets }
        ensures second_in { result.1 < (shape self.now).buckets };

    /// Whether vectors are shown beside their seeds, as those of a tape are.
    fn shows(&self) -> bool
        ensures { result ≡ shows_vectors (book self.now) };

    // The book serves the shape.
    ghost serves: { (draws : Self) → IsBook (shape draws) (book draws) };

    // A block opens to the text that is allowed, fits and seals to it, and to no other.
    ghost opens_what_seals: { (draws : Self)
        → OpensWhatSeals (shape draws) (words_of (shape draws) (book draws)) };

    // What a text was sealed to opens to it.
    ghost opens_sealed: { (draws : Self)
        → OpensSealed (shape draws) (words_of (shape draws) (book draws)) };
}
