ghost use Rattle.std.specs.Prelude.{◌≡◌, ◌*◌, length, map, vec_len, IfOk};
ghost use Rattle.std.specs.List.{All};
ghost use Rattle.tk_kernel.specs.Chosen.{chosen_sum};

use crate::Blocks;
use crate::tiles::summed;
use std::alloc::Global;
use tk_shape::{Bytes, Memory};

/// The answers to many vectors, in their order: for each the XOR of the blocks that it chooses. Each
/// vector has one bit for each block, counted as `answer` counts them. All are made in one pass over the blocks. The
/// vectors are taken, so that none of their bytes is copied.
pub fn answer_each<B: Blocks>(
    alloc: Global,
    blocks: &B,
    vectors: Vec<Bytes>,
) -> Result<Vec<Bytes>, Memory>
    requires { All (λ v. 8 * length v ≡ length (B.blocks blocks.now)) vectors.items }
    ensures { IfOk result (λ sums. sums.items
        ≡ map (chosen_sum (B.width blocks.now) (B.blocks blocks.now)) vectors.items) }
{
    let rows = rows_of(alloc, vectors)?;
    answer_rows(alloc, blocks, rows.as_slice())
}

/// The answers that `answer_each` gives, in spare buffers for sums where there are any. Those of the vectors are spare
/// afterwards.
pub fn answer_each_with<B: Blocks>(
    alloc: Global,
    spare_sums: &mut Vec<Vec<u8>>,
    spare_vectors: &mut Vec<Vec<u8>>,
    blocks: &B,
    vectors: Vec<Bytes>,
) -> Result<Vec<Bytes>, Memory>
    requires { All (λ v. 8 * length v ≡ length (B.blocks blocks.now)) vectors.items }
    ensures { IfOk result (λ sums. sums.items
        ≡ map (chosen_sum (B.width blocks.now) (B.blocks blocks.now)) vectors.items) }
{
    let mut rows = rows_of(alloc, vectors)?;
    let sums = sums_of(alloc, spare_sums, blocks, rows.as_slice())?;
    spare_vectors.append(&mut rows)?;
    Ok(sums)
}

/// The answers to the vectors whose bytes these rows have, as `answer_each` gives them, in one pass over the blocks.
pub fn answer_rows<B: Blocks>(
    alloc: Global,
    blocks: &B,
    rows: &[Vec<u8>],
) -> Result<Vec<Bytes>, Memory>
    requires rows { All (λ row. 8 * vec_len row ≡ length (B.blocks blocks.now)) rows.now }
    ensures { IfOk result (λ sums. sums.items
        ≡ map (chosen_sum (B.width blocks.now) (B.blocks blocks.now))
        (map (λ row. row.items) rows.now)) }
{
    sums_of(alloc, &mut Vec::new(alloc), blocks, rows)
}

/// The answers to the vectors whose bytes these rows have, in spare buffers where there are any.
fn sums_of<B: Blocks>(
    alloc: Global,
    spare: &mut Vec<Vec<u8>>,
    blocks: &B,
    rows: &[Vec<u8>],
) -> Result<Vec<Bytes>, Memory>
    requires rows { All (λ row. 8 * vec_len row ≡ length (B.blocks blocks.now)) rows.now }
    ensures { IfOk result (λ sums. sums.items
        ≡ map (chosen_sum (B.width blocks.now) (B.blocks blocks.now))
        (map (λ row. row.items) rows.now)) }
{
    if rows.is_empty() {
        return Ok(Vec::new(alloc));
    }
    let sums = summed(alloc, spare, blocks, rows)?;
    bytes_of(alloc, sums)
}

/// The vectors' bytes, none of which is copied.
pub fn rows_of(alloc: Global, vectors: Vec<Bytes>) -> Result<Vec<Vec<u8>>, Memory>
    ensures { IfOk result (λ rows. map (λ row. row.items) rows.items ≡ vectors.items) }
{
    let mut rows = Vec::new(alloc);
    for vector in vectors {
        rows.push(vector.into_vec())?;
    }
    Ok(rows)
}

fn bytes_of(alloc: Global, rows: Vec<Vec<u8>>) -> Result<Vec<Bytes>, Memory>
    ensures { IfOk result (λ out. out.items ≡ map (λ row. row.items) rows.items) }
{
    let mut out = Vec::new(alloc);
    for row in rows {
        out.push(Bytes::from_vec(row))?;
    }
    Ok(out)
}
