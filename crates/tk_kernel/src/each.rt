// The blocks that each of many vectors chooses, added to as many sums. Each block is read once for all of them.
ghost use Rattle.std.specs.Prelude.{◌≡◌, ℕ, ◌+◌, ◌*◌, ◌/◌, ◌%◌, ◌^◌, ◌<◌, ◌≤◌, length, slice_index_or, vec_len, Vec};
ghost use Rattle.std.specs.Global.{Global};
ghost use Rattle.std.specs.List.{All};
ghost use Rattle.tk_kernel.specs.Chosen.{chosen_from};
ghost use Rattle.tk_kernel.specs.Pieces.{all_pieces};
ghost use Rattle.tk_kernel.specs.Xor.{xor_bytes, xor_all};

use crate::aligned::at_sixteen;
use crate::columns::{Pass, Tables, add_pass};
use crate::words::{MOST, WORD};
use crate::xor_choose;
use std::simd::prelude::*;

/// From so many vectors on it pays to make the sums of all choices of four blocks.
const MANY: usize = 24;

/// XORs into each sum the blocks that its vector chooses. The blocks lie one after the other, each of
/// `size` bytes as the sums are, and eight of them stand under each byte of a vector, from number `first` on.
pub fn xor_choose_each(
    sums: &mut [Vec<u8>],
    size: usize,
    blocks: &[u8],
    vectors: &[Vec<u8>],
    first: usize,
)
    requires some { 0 < size }
    requires same { length sums.old ≡ length vectors.now }
    requires sized { All (λ v. vec_len v ≡ size) sums.old }
    requires whole { length blocks.now % size ≡ 0 }
    requires eights { length blocks.now / size % 8 ≡ 0 }
    requires vectors { All (λ v. first + length blocks.now / size / 8 ≤ vec_len v) vectors.now }
    requires first { first < 2 ^ 29 }
    ensures count { length sums.new ≡ length sums.old }
    ensures each { (k : ℕ) (d e : Vec ℕ Global) → k < length sums.old
        → (slice_index_or sums.new k d).items
        ≡ xor_bytes (slice_index_or sums.old k d).items
        (xor_all size (chosen_from (8 * first) (all_pieces size blocks.now)
        (slice_index_or vectors.now k e).items)) }
{
    if sums.len() < MANY {
        return add_one_by_one(sums, size, blocks, vectors, first);
    }
    if sums.len() <= MOST {
        return add_by_tables(sums, size, blocks, vectors, first);
    }
    let half = sums.len() / 2;
    let (front, back) = sums.split_at_mut(half);
    xor_choose_each(front, size, blocks, &vectors[..half], first);
    xor_choose_each(back, size, blocks, &vectors[half..], first);
}

// Goes over the blocks once for each vector.
fn add_one_by_one(
    sums: &mut [Vec<u8>],
    size: usize,
    blocks: &[u8],
    vectors: &[Vec<u8>],
    first: usize,
)
    requires some { 0 < size }
    requires same { length sums.old ≡ length vectors.now }
    requires sized { All (λ v. vec_len v ≡ size) sums.old }
    requires whole { length blocks.now % size ≡ 0 }
    requires eights { length blocks.now / size % 8 ≡ 0 }
    requires vectors { All (λ v. first + length blocks.now / size / 8 ≤ vec_len v) vectors.now }
    ensures count { length sums.new ≡ length sums.old }
    ensures each { (k : ℕ) (d e : Vec ℕ Global) → k < length sums.old
        → (slice_index_or sums.new k d).items
        ≡ xor_bytes (slice_index_or sums.old k d).items
        (xor_all size (chosen_from (8 * first) (all_pieces size blocks.now)
        (slice_index_or vectors.now k e).items)) }
{
    for k in 0..sums.len() {
        add_chosen(
            sums[k].as_mut_slice(),
            size,
            blocks,
            vectors[k].as_slice(),
            first,
        );
    }
}

// Adds to one sum what its vector chooses.
fn add_chosen(sum: &mut [u8], size: usize, blocks: &[u8], vector: &[u8], first: usize)
    requires some { 0 < size }
    requires long { length sum.old ≡ size }
    requires whole { length blocks.now % size ≡ 0 }
    requires eights { length blocks.now / size % 8 ≡ 0 }
    requires reach { first + length blocks.now / size / 8 ≤ length vector.now }
    ensures { sum.new ≡ xor_bytes sum.old
        (xor_all size (chosen_from (8 * first) (all_pieces size blocks.now) vector.now)) }
{
    xor_choose(sum, blocks, &vector[first..], 0);
}

// Goes over the blocks once for all vectors, 64 blocks at a time, or as many as are left.
fn add_by_tables<'b>(
    sums: &mut [Vec<u8>],
    size: usize,
    blocks: &'b [u8],
    vectors: &'b [Vec<u8>],
    first: usize,
)
    requires some { 0 < size }
    requires few { length sums.old ≤ MOST }
    requires same { length sums.old ≡ length vectors.now }
    requires sized { All (λ v. vec_len v ≡ size) sums.old }
    requires whole { length blocks.now % size ≡ 0 }
    requires eights { length blocks.now / size % 8 ≡ 0 }
    requires vectors { All (λ v. first + length blocks.now / size / 8 ≤ vec_len v) vectors.now }
    requires first { first < 2 ^ 29 }
    ensures count { length sums.new ≡ length sums.old }
    ensures each { (k : ℕ) (d e : Vec ℕ Global) → k < length sums.old
        → (slice_index_or sums.new k d).items
        ≡ xor_bytes (slice_index_or sums.old k d).items
        (xor_all size (chosen_from (8 * first) (all_pieces size blocks.now)
        (slice_index_or vectors.now k e).items)) }
{
    let count = blocks.len() / size / 8;
    let mut of_64 = at_sixteen([[u8x64::splat(0); 16]; 16]);
    let mut of_32 = at_sixteen([[u8x32::splat(0); 16]; 16]);
    let mut of_16 = at_sixteen([[u8x16::splat(0); 16]; 16]);
    let mut of_8 = at_sixteen([[u8x8::splat(0); 16]; 16]);
    let mut of_1 = at_sixteen([[Simd::<u8, 1>::splat(0); 16]; 16]);
    let mut tables = Tables {
        of_64: &mut of_64.item,
        of_32: &mut of_32.item,
        of_16: &mut of_16.item,
        of_8: &mut of_8.item,
        of_1: &mut of_1.item,
    };
    let mut done = 0;
    while done < count {
        let bytes = (count - done).min(WORD);
        let pass = Pass {
            size,
            blocks: &blocks[8 * done * size..],
            vectors,
            first: first + done,
            bytes,
        };
        add_pass(sums, &pass, &mut tables);
        done += bytes;
    }
}
