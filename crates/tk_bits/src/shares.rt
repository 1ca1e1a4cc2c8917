ghost use Rattle.std.specs.Prelude.{◌≡◌, ◌*◌, ◌%◌, ◌<◌, length};
ghost use Rattle.tk_bits.specs.Shares.{last_share};
ghost use Rattle.tk_kernel.specs.Pieces.{all_pieces};
ghost use Rattle.tk_kernel.specs.Xor.{xor_all};

use tk_kernel::xor_into;

/// The vector of the last server. It joins with the drawn vectors, which the other servers get, to the vector with the
/// bucket's bit alone. The drawn vectors lie one after the other, each as long as `last`.
pub fn share(bucket: u32, drawn: &[u8], last: &mut [u8])
    requires in_vector { bucket < 8 * length last.old }
    requires whole { length drawn.now % length last.old ≡ 0 }
    ensures { let size = length last.old in
        last.new ≡ last_share size bucket (all_pieces size drawn.now) }
{
    join(drawn, last);
    last[bucket as usize / 8] ^= 1 << (bucket % 8);
}

/// XORs pieces. They lie one after the other, each as long as `out`; where there is none, the sum
/// is zeros.
pub fn join(parts: &[u8], out: &mut [u8])
    requires some { 0 < length out.old }
    requires whole { length parts.now % length out.old ≡ 0 }
    ensures { let size = length out.old in out.new ≡ xor_all size (all_pieces size parts.now) }
{
    out.fill(0);
    for part in parts.chunks_exact(out.len()) {
        xor_into(out, part);
    }
}
