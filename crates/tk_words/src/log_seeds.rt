ghost use Rattle.std.specs.Prelude.{◌≡◌, true};

use std::simd::Simd;

/// The seeds of a log that the buckets and the filter positions of its numbers come from.
#[derive(Clone, Copy, Debug, PartialEq, Eq)]
pub struct LogSeeds {
    pub first: [u8; 32],
    pub second: [u8; 32],
}

/// Whether two seeds are the same, all of whose bytes are compared at once.
pub fn is_same_seed(one: &[u8; 32], other: &[u8; 32]) -> bool
    ensures { result ≡ true → one.now ≡ other.now }
{
    let differ = Simd::<u8, 32>::from_slice(one).simd_ne(Simd::from_slice(other));
    differ.to_bitmask() == 0
}
