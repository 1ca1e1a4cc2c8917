// Sixty-four blocks or fewer added to many sums, some neighbouring bytes at a time: of these bytes of the blocks the
// tables of all choices are made, and each vector takes its entries.
ghost use Rattle.std.specs.Prelude.{◌≡◌, ℕ, ◌+◌, ◌*◌, ◌%◌, ◌<◌, ◌≤◌, length, take, drop, slice_index};
ghost use Rattle.std.specs.Prelude.{slice_index_or, vec_len, List, Vec};
ghost use Rattle.std.specs.Global.{Global};
ghost use Rattle.std.specs.List.{All};
ghost use Rattle.std.specs.Simd.Lanes.{put_chunk, chunk};
ghost use Rattle.tk_kernel.specs.Nibbles.{taken, tables_of};
ghost use Rattle.tk_kernel.specs.Stripes.{IsFront, chosen_of_eights};
ghost use Rattle.tk_kernel.specs.Xor.{xor_bytes};

use crate::nibbles::{add_entries, add_some_entries, fill_table};
use crate::words::{MOST, WORD, words_of};
use std::simd::prelude::*;

/// Blocks of `size` bytes one after the other, and the vectors, of which each has so many bytes from number `first`
/// on that choose, each byte of eight blocks.
#[derive(Clone, Copy)]
pub(crate) struct Pass<'a> {
    pub(crate) size: usize,
    pub(crate) blocks: &'a [u8],
    pub(crate) vectors: &'a [Vec<u8>],
    pub(crate) first: usize,
    pub(crate) bytes: usize,
}

/// Room for the tables of up to 64 blocks, for so many neighbouring bytes each.
#[derive(Drop)]
pub(crate) struct Tables<'a> {
    pub(crate) of_64: &'a mut [[u8x64; 16]; 16],
    pub(crate) of_32: &'a mut [[u8x32; 16]; 16],
    pub(crate) of_16: &'a mut [[u8x16; 16]; 16],
    pub(crate) of_8: &'a mut [[u8x8; 16]; 16],
    pub(crate) of_1: &'a mut [[Simd<u8, 1>; 16]; 16],
}

/// Adds to each sum the blocks that its vector's bytes in the pass choose.
pub(crate) fn add_pass(sums: &mut [Vec<u8>], pass: &Pass, tables: &mut Tables)
    requires few { length sums.old ≤ MOST }
    requires bytes { pass.now.bytes ≤ 8 }
    requires same { length sums.old ≡ length pass.now.vectors.now }
    requires sized { All (λ v. vec_len v ≡ pass.now.size) sums.old }
    requires vectors { All (λ v. pass.now.first + pass.now.bytes ≤ vec_len v) pass.now.vectors.now }
    requires blocks { 8 * pass.now.bytes * pass.now.size ≤ length pass.now.blocks.now }
    ensures count { length sums.new ≡ length sums.old }
    ensures each { (k : ℕ) (d e : Vec ℕ Global) → k < length sums.old
        → (slice_index_or sums.new k d).items
        ≡ xor_bytes (slice_index_or sums.old k d).items
        (chosen_of_eights pass.now.size pass.now.bytes pass.now.blocks.now
        (take pass.now.bytes
        (drop pass.now.first (slice_index_or pass.now.vectors.now k e).items))) }
{
    let room = words_of(pass.vectors, pass.first, pass.bytes);
    let words = &room[..sums.len()];
    let mut done = add_stripes(sums, pass, words, tables.of_64, 0);
    done = add_stripes(sums, pass, words, tables.of_32, done);
    done = add_stripes(sums, pass, words, tables.of_16, done);
    done = add_stripes(sums, pass, words, tables.of_8, done);
    add_stripes(sums, pass, words, tables.of_1, done);
}

// Adds from byte number `from` on, N neighbouring bytes at a time, and gives the number of the first byte
// that is left. It makes its tables in those that it is given.
fn add_stripes<const N: usize>(
    sums: &mut [Vec<u8>],
    pass: &Pass,
    words: &[u64],
    tables: &mut [[Simd<u8, N>; 16]; 16],
    from: usize,
) -> usize
    requires some { 0 < N }
    requires bytes { pass.now.bytes ≤ 8 }
    requires within { from ≤ pass.now.size }
    requires same { length sums.old ≡ length words.now }
    requires sized { All (λ v. vec_len v ≡ pass.now.size) sums.old }
    requires blocks { 8 * pass.now.bytes * pass.now.size ≤ length pass.now.blocks.now }
    ensures within { result ≤ pass.now.size }
    ensures last { pass.now.size < result + N }
    ensures count { length sums.new ≡ length sums.old }
    ensures sized { All (λ v. vec_len v ≡ pass.now.size) sums.new }
    ensures front { (start : List (Vec ℕ Global)) → All (λ v. vec_len v ≡ pass.now.size) start
        → IsFront pass.now.size pass.now.bytes pass.now.blocks.now words.now start from sums.old
        → IsFront pass.now.size pass.now.bytes pass.now.blocks.now words.now start result sums.new }
{
    let mut i = from;
    while pass.size - i >= N {
        make_tables(tables, pass, i);
        add_to_each(sums, words, tables, pass.bytes, i);
        i += N;
    }
    i
}

// Makes the tables of the blocks' N bytes from number i on, one for each four blocks.
fn make_tables<const N: usize>(tables: &mut [[Simd<u8, N>; 16]; 16], pass: &Pass, i: usize)
    requires within { i + N ≤ pass.now.size }
    requires bytes { pass.now.bytes ≤ 8 }
    requires blocks { 8 * pass.now.bytes * pass.now.size ≤ length pass.now.blocks.now }
    ensures { take (2 * pass.now.bytes) tables.new
        ≡ tables_of N pass.now.size i pass.now.blocks.now 0 (2 * pass.now.bytes) }
{
    for h in 0..2 * pass.bytes {
        fill_table(&mut tables[h], pass.blocks, pass.size, 4 * h, i);
    }
}

// Adds to the N bytes from number i on of each sum what so many bytes of its word choose.
fn add_to_each<const N: usize>(
    sums: &mut [Vec<u8>],
    words: &[u64],
    tables: &[[Simd<u8, N>; 16]; 16],
    bytes: usize,
    i: usize,
)
    requires same { length sums.old ≡ length words.now }
    requires within { All (λ v. i + N ≤ vec_len v) sums.old }
    requires bytes { bytes ≤ 8 }
    ensures count { length sums.new ≡ length sums.old }
    ensures each { (k : ℕ) (d : Vec ℕ Global) → k < length sums.old
        → (slice_index_or sums.new k d).items
        ≡ put_chunk i (slice_index_or sums.old k d).items
        (taken (take (2 * bytes) tables.now) (chunk i N (slice_index_or sums.old k d).items)
        (slice_index words.now k)) }
{
    if bytes == WORD {
        add_whole_words(sums, words, tables, i);
    } else {
        add_short_words(sums, words, &tables[..2 * bytes], i);
    }
}

// The same by all bytes of each word.
fn add_whole_words<const N: usize>(
    sums: &mut [Vec<u8>],
    words: &[u64],
    tables: &[[Simd<u8, N>; 16]; 16],
    i: usize,
)
    requires same { length sums.old ≡ length words.now }
    requires within { All (λ v. i + N ≤ vec_len v) sums.old }
    ensures count { length sums.new ≡ length sums.old }
    ensures each { (k : ℕ) (d : Vec ℕ Global) → k < length sums.old
        → (slice_index_or sums.new k d).items
        ≡ put_chunk i (slice_index_or sums.old k d).items
        (taken tables.now (chunk i N (slice_index_or sums.old k d).items)
        (slice_index words.now k)) }
{
    for k in 0..sums.len() {
        add_entries::<N>(sums[k].as_mut_slice(), i, tables, words[k]);
    }
}

// The same by as many bytes of each word as have two tables.
fn add_short_words<const N: usize>(
    sums: &mut [Vec<u8>],
    words: &[u64],
    tables: &[[Simd<u8, N>; 16]],
    i: usize,
)
    requires same { length sums.old ≡ length words.now }
    requires within { All (λ v. i + N ≤ vec_len v) sums.old }
    requires pairs { length tables.now % 2 ≡ 0 }
    ensures count { length sums.new ≡ length sums.old }
    ensures each { (k : ℕ) (d : Vec ℕ Global) → k < length sums.old
        → (slice_index_or sums.new k d).items
        ≡ put_chunk i (slice_index_or sums.old k d).items
        (taken tables.now (chunk i N (slice_index_or sums.old k d).items)
        (slice_index words.now k)) }
{
    for k in 0..sums.len() {
        add_some_entries::<N>(sums[k].as_mut_slice(), i, tables, words[k]);
    }
}
