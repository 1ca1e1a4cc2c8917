// How many blocks are gone over at once.
ghost use Rattle.std.specs.Prelude.{◌<◌, ◌≤◌};

/// The most bytes of a vector that a pass goes over, eight blocks under each.
pub(crate) const MOST: usize = 8;

/// The bytes of a vector that a pass goes over: as many as have 64 KiB of blocks under them, so that these stay in the
/// nearer caches, but two at least.
pub(crate) fn pass_bytes(size: usize) -> usize
    requires { 0 < size }
    ensures some { 0 < result }
    ensures most { result ≤ MOST }
{
    (8192 / size).clamp(2, MOST)
}
