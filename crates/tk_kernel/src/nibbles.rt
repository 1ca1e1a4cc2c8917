// Blocks added to many sums at once, four by four: of each four the sums of all choices are made, and each vector then
// takes one of these.
ghost use Rattle.std.specs.Prelude.{◌≡◌, ◌+◌, ◌*◌, ◌/◌, ◌%◌, ◌≤◌, [], length, slice_index_or};
ghost use Rattle.std.specs.Simd.Lanes.{put_chunk, chunk};
ghost use Rattle.tk_kernel.specs.Nibbles.{table_at, taken};
ghost use Rattle.tk_kernel.specs.Xor.{xor_bytes};

use std::simd::prelude::*;

#[inline(always)]
fn plus<const N: usize>(a: Simd<u8, N>, b: Simd<u8, N>) -> Simd<u8, N>
    ensures { result ≡ xor_bytes a.entry b.entry }
{
    a ^ b
}

/// The sums of all choices of four blocks, of the N bytes from number i on alone. The first block is number `at`.
#[inline(always)]
pub(crate) fn fill_table<const N: usize>(
    table: &mut [Simd<u8, N>; 16],
    blocks: &[u8],
    size: usize,
    at: usize,
    i: usize,
)
    requires within { i + N ≤ size }
    requires few { at ≤ 60 }
    requires blocks { (at + 4) * size ≤ length blocks.now }
    ensures { table.new ≡ table_at N size i blocks.now at }
{
    let a = Simd::<u8, N>::from_slice(&blocks[at * size + i..]);
    let b = Simd::<u8, N>::from_slice(&blocks[(at + 1) * size + i..]);
    let c = Simd::<u8, N>::from_slice(&blocks[(at + 2) * size + i..]);
    let d = Simd::<u8, N>::from_slice(&blocks[(at + 3) * size + i..]);
    let none = Simd::<u8, N>::splat(0);
    let of_b = plus(b, none);
    let of_c = plus(c, none);
    let of_bc = plus(b, of_c);
    let of_d = plus(d, none);
    let of_bd = plus(b, of_d);
    let of_cd = plus(c, of_d);
    let of_bcd = plus(b, of_cd);
    table[0] = none;
    table[1] = plus(a, none);
    table[2] = of_b;
    table[3] = plus(a, of_b);
    table[4] = of_c;
    table[5] = plus(a, of_c);
    table[6] = of_bc;
    table[7] = plus(a, of_bc);
    table[8] = of_d;
    table[9] = plus(a, of_d);
    table[10] = of_bd;
    table[11] = plus(a, of_bd);
    table[12] = of_cd;
    table[13] = plus(a, of_cd);
    table[14] = of_bcd;
    table[15] = plus(a, of_bcd);
}

/// Adds to the N bytes of `dst` from number i on of each table the entry that four bits of the word name. It
/// has no loop, so that the sum stays in registers.
#[inline(always)]
pub(crate) fn add_entries<const N: usize>(
    dst: &mut [u8],
    i: usize,
    tables: &[[Simd<u8, N>; 16]; 16],
    word: u64,
)
    requires { i + N ≤ length dst.old }
    ensures { dst.new ≡ put_chunk i dst.old (taken tables.now (chunk i N dst.old) word) }
{
    let mut sum = Simd::<u8, N>::from_slice(&dst[i..]);
    let mut left = word;
    add_entry(&mut sum, &tables[0], &mut left);
    add_entry(&mut sum, &tables[1], &mut left);
    add_entry(&mut sum, &tables[2], &mut left);
    add_entry(&mut sum, &tables[3], &mut left);
    add_entry(&mut sum, &tables[4], &mut left);
    add_entry(&mut sum, &tables[5], &mut left);
    add_entry(&mut sum, &tables[6], &mut left);
    add_entry(&mut sum, &tables[7], &mut left);
    add_entry(&mut sum, &tables[8], &mut left);
    add_entry(&mut sum, &tables[9], &mut left);
    add_entry(&mut sum, &tables[10], &mut left);
    add_entry(&mut sum, &tables[11], &mut left);
    add_entry(&mut sum, &tables[12], &mut left);
    add_entry(&mut sum, &tables[13], &mut left);
    add_entry(&mut sum, &tables[14], &mut left);
    add_entry(&mut sum, &tables[15], &mut left);
    sum.copy_to_slice(&mut dst[i..]);
}

/// Adds to the N bytes of `dst` from number i on the entries of fewer tables, of two for each byte of the word.
#[inline(always)]
pub(crate) fn add_some_entries<const N: usize>(
    dst: &mut [u8],
    i: usize,
    tables: &[[Simd<u8, N>; 16]],
    word: u64,
)
    requires within { i + N ≤ length dst.old }
    requires pairs { length tables.now % 2 ≡ 0 }
    ensures { dst.new ≡ put_chunk i dst.old (taken tables.now (chunk i N dst.old) word) }
{
    let mut sum = Simd::<u8, N>::from_slice(&dst[i..]);
    let mut left = word;
    let mut rest = tables;
    while let [low, high, others @ ..] = rest {
        add_entry(&mut sum, low, &mut left);
        add_entry(&mut sum, high, &mut left);
        rest = others;
    }
    sum.copy_to_slice(&mut dst[i..]);
}

// Adds the entry that the lowest four bits name, and goes on to the bits after them.
#[inline(always)]
fn add_entry<const N: usize>(sum: &mut Simd<u8, N>, table: &[Simd<u8, N>; 16], left: &mut u64)
    ensures sum { sum.new ≡ xor_bytes sum.old (slice_index_or table.now (left.old % 16) []) }
    ensures left { left.new ≡ left.old / 16 }
{
    *sum = plus(*sum, table[(*left % 16) as usize]);
    *left /= 16;
}
