// Blocks added to many sums, a tile at a time: as many blocks as stay in the nearer caches while each vector's are
// added.
ghost use Rattle.std.specs.Prelude.{◌≡◌, ◌-◌, ◌*◌, ◌%◌, ◌<◌, ◌≤◌, length, take, drop, map, replicate, vec_len, IfOk};
ghost use Rattle.std.specs.List.{All, concat};
ghost use Rattle.tk_kernel.specs.Chosen.{chosen_sum};
ghost use Rattle.tk_answer.specs.Summing.{AreSumming};

use crate::Blocks;
use std::alloc::Global;
use tk_kernel::xor_choose_each;
use tk_shape::Memory;

/// The bytes of a tile.
const TILE: usize = 65536;

/// For each vector the sum of the blocks that it chooses, in a spare buffer if there is one.
pub(crate) fn summed<B: Blocks>(
    alloc: Global,
    spare: &mut Vec<Vec<u8>>,
    blocks: &B,
    vectors: &[Vec<u8>],
) -> Result<Vec<Vec<u8>>, Memory>
    requires eights { length (B.blocks blocks.now) % 8 ≡ 0 }
    requires vectors { All (λ v. 8 * vec_len v ≡ length (B.blocks blocks.now)) vectors.now }
    ensures { IfOk result (λ sums. map (λ sum. sum.items) sums.items
        ≡ map (chosen_sum (B.width blocks.now) (B.blocks blocks.now))
        (map (λ v. v.items) vectors.now)) }
{
    let mut sums = zeros(alloc, spare, vectors.len(), blocks.width() as usize)?;
    let count = blocks.count();
    let mut gathered = Vec::new(alloc);
    let mut done = 0;
    while done < count {
        done = add_tile(blocks, vectors, done, &mut gathered, sums.as_mut_slice())?;
    }
    Ok(sums)
}

// As many sums of no blocks.
fn zeros(
    alloc: Global,
    spare: &mut Vec<Vec<u8>>,
    count: usize,
    width: usize,
) -> Result<Vec<Vec<u8>>, Memory>
    ensures count { IfOk result (λ sums. length sums.items ≡ count) }
    ensures each { IfOk result (λ sums. All (λ sum. sum.items ≡ replicate width 0) sums.items) }
{
    let mut sums = Vec::with_capacity(alloc, count)?;
    for _ in 0..count {
        sums.push(zeros_in(alloc, spare, width)?)?;
    }
    Ok(sums)
}

// A sum of no blocks, in a spare buffer if there is one.
fn zeros_in(alloc: Global, spare: &mut Vec<Vec<u8>>, width: usize) -> Result<Vec<u8>, Memory>
    ensures { IfOk result (λ sum. sum.items ≡ replicate width 0) }
{
    let Some(mut sum) = spare.pop() else {
        return Ok(vec![in alloc; 0u8; width]?);
    };
    sum.resize(width, 0)?;
    sum.as_mut_slice().fill(0);
    Ok(sum)
}

// Adds the blocks of one tile, from a number on, and gives the number after them. They are added where they lie if all
// of them lie together, else they are gathered first.
fn add_tile<B: Blocks>(
    blocks: &B,
    vectors: &[Vec<u8>],
    from: u32,
    gathered: &mut Vec<u8>,
    sums: &mut [Vec<u8>],
) -> Result<u32, Memory>
    requires within { from < length (B.blocks blocks.now) }
    requires from { from % 8 ≡ 0 }
    requires eights { length (B.blocks blocks.now) % 8 ≡ 0 }
    requires vectors { All (λ v. 8 * vec_len v ≡ length (B.blocks blocks.now)) vectors.now }
    requires begun { AreSumming (B.width blocks.now) (B.blocks blocks.now) vectors.now from sums.old }
    ensures count { length sums.new ≡ length sums.old }
    ensures more { IfOk result (λ next. from < next) }
    ensures next { IfOk result (λ next. next % 8 ≡ 0) }
    ensures sums { IfOk result (λ next.
        AreSumming (B.width blocks.now) (B.blocks blocks.now) vectors.now next sums.new) }
{
    let width = blocks.width() as usize;
    let tile = tile_len(width).min((blocks.count() - from) as usize);
    let next = from + tile as u32;
    let run = blocks.run(from);
    if run.len() / width >= tile {
        xor_choose_each(
            sums,
            width,
            &run[..tile * width],
            vectors,
            from as usize / 8,
        );
        return Ok(next);
    }
    gather(blocks, from, next, gathered)?;
    xor_choose_each(sums, width, gathered.as_slice(), vectors, from as usize / 8);
    Ok(next)
}

// How many blocks a tile has: as many as the passes over many vectors take, 64 at a time.
fn tile_len(width: usize) -> usize
    requires { 0 < width }
    ensures some { 0 < result }
    ensures few { result ≤ 1024 }
    ensures eights { result % 8 ≡ 0 }
{
    (TILE / width).clamp(64, 1024) / 64 * 64
}

// Copies the blocks from one number to before another, one after the other.
fn gather<B: Blocks>(blocks: &B, from: u32, end: u32, gathered: &mut Vec<u8>) -> Result<(), Memory>
    requires order { from ≤ end }
    requires within { end ≤ length (B.blocks blocks.now) }
    ensures { IfOk result (λ _.
        gathered.new.items ≡ concat (take (end - from) (drop from (B.blocks blocks.now)))) }
{
    let width = blocks.width() as usize;
    gathered.clear();
    let mut done = from;
    while done < end {
        let run = blocks.run(done);
        let found = (run.len() / width).min((end - done) as usize);
        gathered.extend_from_slice(&run[..found * width])?;
        done += found as u32;
    }
    Ok(())
}
