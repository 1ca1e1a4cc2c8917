ghost use Rattle.std.specs.Prelude.{◌≡◌};

use tk_bloom::Filter;
use tk_shape::Shape;
use tk_words::Draws;

/// What shows which numbers of which logs are worth reading: a filter, over the words of a book.
#[derive(Drop)]
pub(crate) struct Sight<'a, D: Draws> {
    pub shape: &'a Shape,
    pub draws: &'a D,
    pub filter: &'a Filter,
    ghost one_shape: { D.shape draws.now ≡ shape.now },
}
