ghost use Rattle.std.specs.Prelude.{◌≡◌, ◌+◌, ◌-◌, ◌*◌, ◌≤◌, ◌++◌, length, take, drop, IfOk};
ghost use Rattle.std.specs.List.{concat};

use tk_answer::Blocks;
use tk_shape::Memory;

/// Appends the blocks from one number to before another, one after the other.
pub(crate) fn add_blocks<B: Blocks>(
    bytes: &mut Vec<u8>,
    blocks: &B,
    from: u32,
    end: u32,
) -> Result<(), Memory>
    requires order { from ≤ end }
    requires within { end ≤ length (B.blocks blocks.now) }
    ensures { IfOk result (λ _. bytes.new.items
        ≡ bytes.old.items ++ concat (take (end - from) (drop from (B.blocks blocks.now)))) }
{
    let width = blocks.width() as usize;
    let mut done = from;
    while done < end {
        let run = blocks.run(done);
        let found = (run.len() / width).min((end - done) as usize);
        bytes.extend_from_slice(&run[..found * width])?;
        done += found as u32;
    }
    Ok(())
}

/// Writes a block over number `i` of those that lie in the slice.
pub(crate) fn write_block(bytes: &mut [u8], i: usize, block: &[u8])
    requires { (i + 1) * length block.now ≤ length bytes.old }
    ensures len { length bytes.new ≡ length bytes.old }
    ensures block { let width = length block.now in
        bytes.new
        ≡ take (i * width) bytes.old ++ (block.now ++ drop width (drop (i * width) bytes.old)) }
{
    let from = i * block.len();
    bytes[from..from + block.len()].copy_from_slice(block);
}
