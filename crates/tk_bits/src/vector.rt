ghost use Rattle.std.specs.Prelude.{◌≡◌, ◌*◌, ◌<◌, length};
ghost use Rattle.tk_kernel.specs.Chosen.{has_bit};

/// Whether a vector has bit `i`. Bits are counted through the bytes in order, the least bit of each first.
pub fn bit(vector: &[u8], i: u32) -> bool
    requires { i < 8 * length vector.now }
    ensures { result ≡ has_bit vector.now i }
{
    vector[i as usize / 8] >> (i % 8) & 1 == 1
}
