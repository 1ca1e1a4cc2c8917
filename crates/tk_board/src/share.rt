ghost use Rattle.std.specs.Prelude.{◌≡◌, ℕ, IfOk};

use crate::memory::Memory;
use std::sync::Arc;

/// A value of which there can be another that means the same.
pub trait Share: Drop + Send + Sync + Sized {
    /// What the value means. No value of it is made.
    type Meaning;

    ghost meaning: { Self → Self.Meaning };

    // What a board may show after so many values.
    ghost fits: { ℕ → Self.Meaning → Type 0 };

    fn share(&self) -> Result<Self, Memory>
        ensures { IfOk result (λ y. meaning y ≡ meaning self.now) };
}

/// A value that a board may show, by how many it showed before.
pub trait Listed {
    ghost use Rattle.std.specs.Prelude.{ℕ};

    ghost fits: { ℕ → Self → Type 0 };
}

impl<T: Listed + Drop + Send + Sync> Share for Arc<T> {
    type Meaning = T;

    ghost use Rattle.std.specs.Arc.{arc_value};

    ghost meaning = { λ a. arc_value a };

    ghost fits = { T.fits };

    fn share(&self) -> Result<Arc<T>, Memory> {
        Ok(Arc::try_clone(self)?)
    }
}
