//! Filter positions that are kept, so that none is computed twice.
ghost use Rattle.std.specs.Prelude.{◌≡◌, ◌<◌, true, take, None};
ghost use Rattle.tk_shape.specs.Lengths.{turn_count};
ghost use Rattle.tk_words.specs.Words.{hits_of};
ghost use Rattle.tk_client.specs.Positions.{IsOriginOrNone, IsOriginOf};

use std::marker::Model;
use tk_shape::Shape;
use tk_words::{Draws, is_same_seed};

/// What the filter positions of all numbers of a log come from.
#[derive(Clone, Copy, Debug, PartialEq, Eq)]
pub(crate) struct Origin {
    pub seed: [u8; 32],
    /// How many positions the filter has.
    pub bits: u32,
    /// How many of them each number has.
    pub hits: u32,
}

/// A number and its filter positions, which are the first of these.
#[derive(Clone, Copy, Debug)]
pub(crate) struct NumberPositions {
    pub number: u32,
    pub hits: [u32; 4],
}

/// Filter positions of a log's numbers, kept since they were looked at: of eight numbers in a row
/// all, since of those that are equal modulo eight the last one's are kept. Seen as what they come
/// from.
#[derive(Debug, Drop)]
pub(crate) struct Positions {
    origin: Option<Origin>,
    spots: [Option<NumberPositions>; 8],
}

impl Model for Positions {
    ghost use Rattle.std.specs.Prelude.{All, Option};
    ghost use Rattle.tk_client.specs.declared.positions.Origin.{Origin};
    ghost use Rattle.tk_client.specs.Positions.{IsKept};

    ghost Value = { Option Origin };

    ghost view = { λ p. p.origin };

    ghost invariant = { λ p. All (IsKept p.origin) p.spots };
}

impl Positions {
    /// Of no log, so that nothing is kept.
    pub(crate) fn new() -> Positions
        ensures { result ≡ None }
    {
        Positions {
            origin: None,
            spots: [None; 8],
        }
    }

    /// Makes ready for a log of a book. What is kept and comes from elsewhere is forgotten.
    pub(crate) fn turn_to<D: Draws>(&mut self, shape: &Shape, draws: &D, log: u32)
        requires one_shape { D.shape draws.now ≡ shape.now }
        requires log_in { log < shape.now.logs }
        ensures { IsOriginOrNone shape.now (D.book draws.now) log self.new }
    {
        let origin = origin_of(shape, draws, log);
        if !is_same(self.origin, origin) {
            self.origin = origin;
            self.spots = [None; 8];
        }
    }

    /// Whether what is kept comes from where the positions of a log do; never where the book gives
    /// these number by number.
    pub(crate) fn is_of<D: Draws>(&self, shape: &Shape, draws: &D, log: u32) -> bool
        requires one_shape { D.shape draws.now ≡ shape.now }
        requires log_in { log < shape.now.logs }
        ensures { result ≡ true → IsOriginOf shape.now (D.book draws.now) log self.now }
    {
        match (&self.origin, origin_of(shape, draws, log)) {
            (Some(kept), Some(origin)) => is_same_origin(kept, &origin),
            _ => false,
        }
    }

    /// The filter positions of a number, which are the first of these.
    pub(crate) fn of<D: Draws>(
        &mut self,
        shape: &Shape,
        draws: &D,
        log: u32,
        number: u32,
    ) -> [u32; 4]
        requires one_shape { D.shape draws.now ≡ shape.now }
        requires log_in { log < shape.now.logs }
        requires number_in { number < turn_count shape.now }
        requires ready { IsOriginOrNone shape.now (D.book draws.now) log self.old }
        ensures hits { take shape.now.hits result
            ≡ hits_of shape.now (D.book draws.now) log number }
        ensures same { self.new ≡ self.old }
    {
        let place = number as usize % 8;
        if let Some(spot) = self.spots[place] {
            if spot.number == number {
                return spot.hits;
            }
        }
        let hits = computed(shape, draws, log, number);
        if self.origin.is_some() {
            self.spots[place] = Some(NumberPositions { number, hits });
        }
        hits
    }
}

/// Whether positions come from the same.
fn is_same(one: Option<Origin>, other: Option<Origin>) -> bool
    ensures { result ≡ true → one ≡ other }
{
    match (one, other) {
        (Some(one), Some(other)) => is_same_origin(&one, &other),
        (None, None) => true,
        _ => false,
    }
}

fn is_same_origin(one: &Origin, other: &Origin) -> bool
    ensures { result ≡ true → one.now ≡ other.now }
{
    one.bits == other.bits && one.hits == other.hits && is_same_seed(&one.seed, &other.seed)
}

/// What the filter positions of a log's numbers come from, if not from the book number by number.
fn origin_of<D: Draws>(shape: &Shape, draws: &D, log: u32) -> Option<Origin>
    requires one_shape { D.shape draws.now ≡ shape.now }
    requires log_in { log < shape.now.logs }
    ensures { IsOriginOrNone shape.now (D.book draws.now) log result }
{
    let seed = draws.log_seeds(log)?.second;
    Some(Origin {
        seed,
        bits: shape.filter_bits,
        hits: shape.hits,
    })
}

/// The filter positions of a number, as its book gives them.
fn computed<D: Draws>(shape: &Shape, draws: &D, log: u32, number: u32) -> [u32; 4]
    requires one_shape { D.shape draws.now ≡ shape.now }
    requires log_in { log < shape.now.logs }
    requires number_in { number < turn_count shape.now }
    ensures { take shape.now.hits result ≡ hits_of shape.now (D.book draws.now) log number }
{
    let mut hits = [0u32; 4];
    draws.hits(log, number, &mut hits[..shape.hits as usize]);
    hits
}
