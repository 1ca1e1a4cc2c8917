ghost use Rattle.std.specs.Prelude.{◌≡◌};
ghost use Rattle.tk_shape.specs.Lifting.{lifted_shape};

use crate::Shape;

impl Shape {
    /// The shape of the same numbers in format 2.
    pub fn lifted(&self) -> Shape
        ensures { result ≡ lifted_shape self.now }
    {
        let mut shape = *self;
        shape.format = 2;
        shape
    }
}
