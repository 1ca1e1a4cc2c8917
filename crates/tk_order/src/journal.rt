ghost use Rattle.std.specs.Prelude.{◌≡◌, map};
ghost use Rattle.std.specs.Arc.{arc_value};

use std::marker::Model;
use std::sync::Arc;
use tk_frames::Placed;

/// The whole list of an order that was closed. Seen as the list.
#[derive(Drop)]
pub struct Journal {
    pub(crate) entries: Vec<Arc<Placed>>,
}

impl Model for Journal {
    ghost use Rattle.std.specs.Prelude.{List, map};
    ghost use Rattle.std.specs.Arc.{arc_value};
    ghost use Rattle.tk_frames.specs.declared.entry.Placed.{Placed};

    ghost Value = { List Placed };

    ghost view = { λ j. map (λ a. arc_value a) j.entries.items };
}

impl Journal {
    /// The entries by position, the first one at place 0.
    pub fn as_slice(&self) -> &[Arc<Placed>]
        ensures { map (λ a. arc_value a) result.now ≡ self.now }
    {
        self.entries.as_slice()
    }
}
