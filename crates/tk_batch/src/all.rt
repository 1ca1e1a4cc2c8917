ghost use Rattle.std.specs.Prelude.{◌≡◌, ◌*◌, ◌<◌, ◌≤◌, [], length, map, vec_len, IfOk, IsOk};
ghost use Rattle.std.specs.List.{All};
ghost use Rattle.tk_kernel.specs.Chosen.{chosen_sum};
ghost use Rattle.tk_batch.specs.Parts.{HasChunks};

use crate::joined::{Part, joined};
use std::alloc::Global;
use std::thread;
use std::thread::Threads;
use tk_answer::{Blocks, answer_rows, rows_of};
use tk_shape::{Bytes, Memory};

/// The answers to many vectors, in their order, as `answer_each` of `tk_answer` gives them. The
/// vectors are cut into at most `workers` runs of about one length, and each run is answered in a
/// pass over the blocks of its own, in a thread of its own where one can be made.
pub fn answer_all<B: Blocks, R: Threads + Sync>(
    rt: &R,
    blocks: &B,
    vectors: Vec<Bytes>,
    workers: u32,
) -> Result<Vec<Bytes>, Memory>
    requires vectors { All (λ v. 8 * length v ≡ length (B.blocks blocks.now)) vectors.items }
    requires workers { (1 ≤ workers) × (workers ≤ 64) }
    ensures sums { IfOk result (λ sums. sums.items
        ≡ map (chosen_sum (B.width blocks.now) (B.blocks blocks.now)) vectors.items) }
    ensures none { vectors.items ≡ [] → IsOk result }
{
    if vectors.is_empty() {
        return Ok(vectors);
    }
    answer_some(rt, blocks, vectors, workers)
}

/// The answers to at least one vector.
fn answer_some<B: Blocks, R: Threads + Sync>(
    rt: &R,
    blocks: &B,
    vectors: Vec<Bytes>,
    workers: u32,
) -> Result<Vec<Bytes>, Memory>
    requires vectors { All (λ v. 8 * length v ≡ length (B.blocks blocks.now)) vectors.items }
    requires some { 0 < length vectors.items }
    requires workers { 1 ≤ workers }
    ensures { IfOk result (λ sums. sums.items
        ≡ map (chosen_sum (B.width blocks.now) (B.blocks blocks.now)) vectors.items) }
{
    let alloc = *vectors.allocator();
    let size = vectors.len().div_ceil(workers as usize);
    let rows = rows_of(alloc, vectors)?;
    let parts = answer_chunks(rt, alloc, blocks, rows.as_slice(), size)?;
    joined(alloc, parts)
}

/// The answers to each chunk of so many rows, the last of which may be shorter.
fn answer_chunks<B: Blocks, R: Threads + Sync>(
    rt: &R,
    alloc: Global,
    blocks: &B,
    rows: &[Vec<u8>],
    size: usize,
) -> Result<Vec<Part>, Memory>
    requires rows { All (λ row. 8 * vec_len row ≡ length (B.blocks blocks.now)) rows.now }
    requires size { 0 < size }
    ensures { IfOk result (λ parts. HasChunks
        (chosen_sum (B.width blocks.now) (B.blocks blocks.now)) size rows.now parts.items) }
{
    let parts = thread::map_chunks(
        rt,
        alloc,
        rows,
        size,
        &|_, chunk|
            requires { All (λ row. 8 * vec_len row ≡ length (B.blocks blocks.now)) chunk.now }
        { answer_rows(alloc, blocks, chunk) },
    )?;
    Ok(parts)
}
