//! What a server is set up by.
ghost use Rattle.std.specs.Prelude.{◌≡◌, ◌<◌, length, IfSome, IfNone, drop};
ghost use Rattle.tk_shape.specs.declared.shape.Shape.{Shape};
ghost use Rattle.tk_frames.specs.Fields.{numbers};
ghost use Rattle.tk_serve.specs.Setup.{setup, setup_bytes, longest_frame};

use tk_frames::u32_at;
use tk_packets::Packet;
use tk_shape::Shape;

/// How many bytes there are: the format and the twelve numbers, four bytes each.
pub(crate) const SETUP: u32 = 52;

/// The shape that a packet of the host tells.
pub(crate) fn shape_of(packet: &Packet) -> Option<Shape>
    ensures found { IfSome result (λ shape. packet.now ≡ setup shape) }
    ensures none { IfNone result ((shape : Shape) → packet.now ≡ setup shape → ⊥) }
{
    if packet.peer() != 0 {
        return None;
    }
    shape_in(packet.bytes())
}

/// The shape that bytes tell.
fn shape_in(bytes: &[u8]) -> Option<Shape>
    ensures found { IfSome result (λ shape. bytes.now ≡ setup_bytes shape) }
    ensures none { IfNone result ((shape : Shape) → bytes.now ≡ setup_bytes shape → ⊥) }
{
    if bytes.len() != 52 {
        return None;
    }
    let format = u32_at(bytes, 0);
    if format < 1 || format > 2 {
        return None;
    }
    Shape::of(format, numbers_in(bytes)).ok()
}

/// The twelve numbers after the format.
fn numbers_in(bytes: &[u8]) -> [u32; 12]
    requires { length bytes.now ≡ 52 }
    ensures { result ≡ numbers 12 (drop 4 bytes.now) }
{
    [
        u32_at(bytes, 4),
        u32_at(bytes, 8),
        u32_at(bytes, 12),
        u32_at(bytes, 16),
        u32_at(bytes, 20),
        u32_at(bytes, 24),
        u32_at(bytes, 28),
        u32_at(bytes, 32),
        u32_at(bytes, 36),
        u32_at(bytes, 40),
        u32_at(bytes, 44),
        u32_at(bytes, 48),
    ]
}

/// The bytes of the longest frame that a client sends.
pub(crate) fn longest_frame(shape: &Shape) -> u32
    ensures { result ≡ longest_frame shape.now }
{
    let read = if shape.format == 2 {
        shape.seed_read_len(true)
    } else {
        shape.read_len()
    };
    shape.write_len().max(read)
}
