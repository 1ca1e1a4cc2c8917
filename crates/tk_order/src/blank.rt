ghost use Rattle.std.specs.Prelude.{◌≡◌, ◌≤◌, [], IfOk};
ghost use Rattle.tk_order.specs.Rules.{blank_view};

use crate::counts::Counts;
use crate::rule::{Naming, Place, Words};
use atomic_table::Table;
use std::alloc::Global;
use std::marker::{Model, PhantomData};
use tk_shape::{Memory, Shape};

/// The table of an order that isn't open yet. Seen as the table, the shape and how many seats.
#[derive(Drop)]
pub struct Blank {
    words: Words,
    first: Place,
    shape: Shape,
    seats: u32,
}

impl Model for Blank {
    ghost use Rattle.std.specs.Prelude.{◌≡◌, []};
    ghost use Rattle.tk_order.specs.Rules.{blank_view};
    ghost use Rattle.tk_order.specs.Seats.{Opening};

    ghost Value = { Opening };

    ghost view = { λ b. record {
      table = b.words.shared.table_id;
      shape = b.shape;
      seats = b.seats;
    } };

    ghost invariant = { λ b. (b.first.table_id ≡ b.words.shared.table_id)
        × (b.first.me ≡ (blank_view, [])) × (b.words.shared.key ≡ b.shape)
        × (b.words.shared.table_id.words ≡ 2) };
}

impl Blank {
    /// A blank of a shape and a number of seats.
    pub fn new(alloc: Global, shape: &Shape, seats: u32) -> Result<Blank, Memory>
        requires { 1 ≤ seats }
        ensures shape { IfOk result (λ b. b.shape ≡ shape.now) }
        ensures seats { IfOk result (λ b. b.seats ≡ seats) }
    {
        let (words, first): (Words, Place) = Table::of_words(alloc, &[0, 0], shape)?;
        Ok(Blank {
            words,
            first,
            shape: *shape,
            seats,
        })
    }

    /// The shape of the order to come.
    pub fn shape(&self) -> Shape
        ensures { result ≡ self.now.shape }
    {
        self.shape
    }

    /// How many seats it will have.
    pub fn seats(&self) -> u32
        ensures { result ≡ self.now.seats }
    {
        self.seats
    }

    /// The table under a name, and its first seat.
    pub(crate) fn named<B: Naming>(self) -> (Counts<B>, Place)
        requires table { self.table ≡ B.table }
        requires shape { self.shape ≡ B.shape }
        ensures { (result.1.table_id ≡ B.table) × (result.1.me ≡ (blank_view, [])) }
    {
        let Blank {
            words,
            first,
            shape: _,
            seats: _,
        } = self;
        let of = PhantomData;
        (Counts { words, of }, first)
    }
}
