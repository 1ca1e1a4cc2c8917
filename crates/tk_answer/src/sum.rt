ghost use Rattle.std.specs.Prelude.{◌≡◌, ◌*◌, length};
ghost use Rattle.tk_kernel.specs.Chosen.{chosen_sum};

use crate::Blocks;
use tk_kernel::xor_choose;

/// The XOR of the blocks that the vector chooses; where it chooses none, zeros. The vector
/// has one bit for each block, counted through the bytes in order, the least bit of each first.
pub fn answer<B: Blocks>(blocks: &B, vector: &[u8], out: &mut [u8])
    requires width { length out.old ≡ B.width blocks.now }
    requires count { 8 * length vector.now ≡ length (B.blocks blocks.now) }
    ensures { out.new ≡ chosen_sum (B.width blocks.now) (B.blocks blocks.now) vector.now }
{
    let count = blocks.count();
    let width = blocks.width() as usize;
    out.fill(0);
    let mut done = 0;
    while done < count {
        let run = blocks.run(done);
        xor_choose(out, run, vector, done);
        done += (run.len() / width) as u32;
    }
}
