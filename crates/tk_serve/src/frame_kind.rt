//! The first byte of a frame that a client sends.
ghost use Rattle.std.specs.Prelude.{◌≡◌};
ghost use Rattle.tk_serve.specs.Refusals.{is_read_kind};

use tk_shape::Shape;

pub(crate) const WRITE: u8 = 1;

const READ: u8 = 2;

const SEEDED: u8 = 6;

const SHOWN: u8 = 7;

/// Whether a read of the shape's format begins so.
pub(crate) fn is_read(shape: &Shape, kind: u8) -> bool
    ensures { result ≡ is_read_kind shape.now kind }
{
    kind == READ || (shape.format == 2 && (kind == SEEDED || kind == SHOWN))
}
