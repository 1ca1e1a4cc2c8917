ghost use Rattle.std.specs.Prelude.{◌≡◌, ◌↔◌, List, ℕ, length, IsOk, IfOk, IfErr};
ghost use Rattle.tk_shape.specs.Lengths.{tape_len};

use std::alloc::Global;
use std::marker::Model;
use tk_shape::Shape;

/// The drawn bytes of a run, seen as their list: its write cells, its read cells and its keyed cells.
#[derive(Debug, Drop)]
pub struct Tape {
    bytes: Vec<u8>,
}

impl Model for Tape {
    ghost Value = { List ℕ };

    ghost view = { λ t. t.bytes.items };
}

/// A tape of another length than the shape's: the bytes that the shape wants, and those that it got.
#[derive(Clone, Copy, Debug, PartialEq, Eq)]
pub struct TapeError {
    pub want: u64,
    pub got: u64,
}

impl Tape {
    /// The tape of a shape. It takes no memory.
    pub fn from_bytes(shape: &Shape, bytes: Vec<u8>) -> Result<Tape, TapeError>
        ensures whole { IsOk result ↔ (length bytes.items ≡ tape_len shape.now) }
        ensures found { IfOk result (λ t. t ≡ bytes.items) }
        ensures refused { IfErr result (λ e.
            (e.want ≡ tape_len shape.now) × (e.got ≡ length bytes.items)) }
    {
        let want = shape.tape_len();
        let got = bytes.len() as u64;
        if got != want {
            return Err(TapeError { want, got });
        }
        Ok(Tape { bytes })
    }

    pub fn as_bytes(&self) -> &[u8]
        ensures { result.now ≡ self.now }
    {
        self.bytes.as_slice()
    }

    /// A tape of these bytes, whatever shape they are for.
    pub(crate) fn of_bytes(bytes: Vec<u8>) -> Tape
        ensures { result ≡ bytes.items }
    {
        Tape { bytes }
    }

    pub(crate) fn alloc(&self) -> Global {
        *self.bytes.allocator()
    }
}
