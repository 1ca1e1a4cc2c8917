ghost use Rattle.std.specs.Prelude.{◌≡◌};

/// Something at an address that 16 divides, as one of 128 bits is. Vectors of bytes alone may lie anywhere: most
/// instructions then take two steps, and more where they reach into the next line of the cache.
#[repr(C)]
#[derive(Drop)]
pub(crate) struct Aligned<T> {
    at: u128,
    pub(crate) item: T,
}

/// This at such an address.
pub(crate) fn at_sixteen<T>(item: T) -> Aligned<T>
    ensures { result.item ≡ item }
{
    Aligned { at: 0, item }
}
