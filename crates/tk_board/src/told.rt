ghost use Rattle.tk_board.specs.Boards.{AllFit, IsLast};

use crate::rule::Place;
use crate::share::Share;
use crate::shown::Shown;
use std::marker::Model;
use std::sync::Arc;

/// What a publisher told: a list that it had shown, and the last value of it. Seen as its board and
/// that list.
#[derive(Drop)]
pub struct Told<T: Share> {
    pub(crate) place: Place<T>,
    pub(crate) shown: Arc<Shown<T>>,
}

impl<T: Share> Model for Told<T> {
    ghost use Rattle.std.specs.Arc.{arc_value};
    ghost use Rattle.tk_board.specs.Boards.{Known, IsTold};

    ghost Value = { Known T.Meaning };

    ghost view = { λ t. record { board = t.place.table_id; list = t.place.me.0.seen } };

    ghost invariant = { λ t. IsTold t.place (arc_value t.shown) };
}

impl<T: Share> Told<T> {
    /// The value that was shown.
    pub fn value(&self) -> &T
        ensures { IsLast self.now.list (T.meaning result.now) }
    {
        self.shown.value()
    }

    /// Each value of the list may stand where it stands.
    pub fn fits(&self)
        ensures { AllFit T.fits self.now.list }
    {
        self.shown.fits()
    }
}
