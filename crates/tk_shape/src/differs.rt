ghost use Rattle.std.specs.Prelude.{◌≡◌, ◌↔◌, None, find};
ghost use Rattle.tk_shape.specs.Numbers.{format_and_numbers};
ghost use Rattle.tk_shape.specs.Differences.{fields, side_by_side, are_apart, first_difference};

use crate::{Field, Shape};

/// A field in which two shapes differ, and the numbers that they have there.
#[derive(Clone, Copy, Debug, PartialEq, Eq)]
pub struct Differs {
    pub field: Field,
    pub a: u32,
    pub b: u32,
}

impl Differs {
    fn at(field: Field, a: u32, b: u32) -> Differs
        ensures { result ≡ record { field = field; a = a; b = b } }
    {
        Differs { field, a, b }
    }
}

impl Shape {
    /// The first field, the format and then the twelve numbers in their order, in which this shape
    /// (`a`) and another (`b`) differ.
    pub fn differs(&self, other: &Shape) -> Option<Differs>
        ensures equal { (result ≡ None) ↔ (self.now ≡ other.now) }
        ensures first { result ≡ first_difference self.now other.now }
    {
        first_apart(&self.beside(other))
    }

    /// Each field with the numbers of both.
    fn beside(&self, other: &Shape) -> [Differs; 13]
        ensures { result ≡ side_by_side fields (format_and_numbers self.now)
            (format_and_numbers other.now) }
    {
        [
            Differs::at(Field::Format, self.format, other.format),
            Differs::at(Field::Servers, self.servers, other.servers),
            Differs::at(Field::Buckets, self.buckets, other.buckets),
            Differs::at(Field::Depth, self.depth, other.depth),
            Differs::at(Field::Retained, self.retained, other.retained),
            Differs::at(Field::Block, self.block, other.block),
            Differs::at(Field::Filter, self.filter_bits, other.filter_bits),
            Differs::at(Field::Hits, self.hits, other.hits),
            Differs::at(Field::Ahead, self.ahead, other.ahead),
            Differs::at(Field::Clients, self.clients, other.clients),
            Differs::at(Field::Phases, self.phases, other.phases),
            Differs::at(Field::Ticks, self.ticks, other.ticks),
            Differs::at(Field::Logs, self.logs, other.logs),
        ]
    }
}

fn first_apart(pairs: &[Differs]) -> Option<Differs>
    ensures { result ≡ find are_apart pairs.now }
{
    pairs.iter().find(|d| d.a != d.b).copied()
}
