ghost use Rattle.std.specs.Prelude.{◌≡◌, true, IfOk};
ghost use Rattle.tk_bloom.specs.Filters.{all_marked};

use crate::Memory;
use crate::marks::Marks;
use std::alloc::Global;
use std::marker::Model;
use std::sync::Arc;

/// Which positions a window has, seen as a mark for each position. It stays as it is when the
/// window goes on.
#[derive(Debug, Drop)]
pub struct Filter {
    marks: Arc<Marks, Global>,
}

impl Model for Filter {
    ghost use Rattle.std.specs.Prelude.{List, Bool};
    ghost use Rattle.std.specs.Arc.{arc_value};

    ghost Value = { List Bool };

    ghost view = { λ f. arc_value f.marks };
}

impl Filter {
    pub(crate) fn of_marks(alloc: Global, marks: Marks) -> Result<Filter, Memory>
        ensures { IfOk result (λ f. f ≡ marks) }
    {
        match Arc::new(alloc, marks) {
            Ok(marks) => Ok(Filter { marks }),
            Err(_) => Err(Memory),
        }
    }

    /// Whether all of these positions are marked. One past the last mark is not.
    pub fn shows(&self, hits: &[u32]) -> bool
        ensures { result ≡ all_marked self.now hits.now }
    {
        hits.iter().all(|hit| self.marks.has(*hit))
    }

    /// The same filter once more. Nothing is copied.
    pub fn share(&self) -> Result<Filter, Memory>
        ensures { IfOk result (λ f. f ≡ self.now) }
    {
        match Arc::try_clone(&self.marks) {
            Ok(marks) => Ok(Filter { marks }),
            Err(_) => Err(Memory),
        }
    }

    /// Whether it has the marks of another one.
    pub fn is_same(&self, other: &Filter) -> bool
        ensures { result ≡ true → self.now ≡ other.now }
    {
        self.marks.is_same(&other.marks)
    }
}
