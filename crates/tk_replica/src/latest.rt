ghost use Rattle.std.specs.Prelude.{◌≡◌, ◌<◌, List, IfOk, IfSome, MatchOption};
ghost use Rattle.std.specs.Arc.{arc_value};
ghost use Rattle.tk_shape.specs.declared.shape.Shape.{Shape};
ghost use Rattle.tk_frames.specs.declared.entry.Placed.{Placed};
ghost use Rattle.tk_replica.specs.Following.{marks_among, IsEpochAt};
ghost use Rattle.tk_replica.specs.Replica.{StandsFor};
ghost use Rattle.tk_replica.specs.Shelf.{IsHeld};

use crate::{Epoch, ReplicaState};
use std::sync::Arc;
use tk_shape::Memory;

impl ReplicaState {
    /// The epoch of the last mark among the first entries, or None where it was let go.
    pub(crate) fn latest(&self, upto: u64) -> Result<Option<Arc<Epoch>>, Memory>
        ensures { (shape : Shape) (E : List Placed) → StandsFor shape E self.now
            → IfOk result (λ o. MatchOption o (marks_among upto E < self.now.floor)
            (λ epoch. IsEpochAt shape E upto (arc_value epoch))) }
    {
        match self.marks_among(upto) {
            Some(number) => Ok(Some(Arc::try_clone(self.get(number))?)),
            None => Ok(None),
        }
    }

    /// How many marks stand among the first entries, or None where they are fewer than the floor.
    fn marks_among(&self, upto: u64) -> Option<u32>
        ensures held { IfSome result (IsHeld self.now.floor self.now.last) }
        ensures count { (shape : Shape) (E : List Placed) → StandsFor shape E self.now
            → MatchOption result (marks_among upto E < self.now.floor)
            (λ e. e ≡ marks_among upto E) }
    {
        let mut number = self.shelf.last();
        while self.epoch(number).upto() > upto {
            if number == self.floor() {
                return None;
            }
            number -= 1;
        }
        Some(number)
    }
}
