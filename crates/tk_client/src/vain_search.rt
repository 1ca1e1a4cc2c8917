ghost use Rattle.std.specs.Prelude.{◌≡◌, ◌≢◌, true, None, IfSome};
ghost use Rattle.tk_shape.specs.Lengths.{turn_count};

use crate::sight::Sight;
use crate::target::Target;
use tk_bloom::Filter;
use tk_words::Draws;

/// A search among logs that found nothing.
#[derive(Debug, Drop)]
pub(crate) struct VainSearch {
    /// The epoch that was to be read.
    pub epoch: u32,
    /// How many turns the run has.
    pub turns: u32,
    /// How many numbers are read ahead.
    pub ahead: u32,
    /// The filter of that epoch.
    pub filter: Filter,
}

impl VainSearch {
    /// What is kept of a search among so many logs over an epoch: nothing where a number was found,
    /// where it takes longer to compare two filters than to search again, or where the filter can't
    /// be shared.
    pub(crate) fn after<D: Draws>(
        sight: &Sight<D>,
        epoch: u32,
        logs: usize,
        found: Option<Target>,
    ) -> Option<VainSearch>
        ensures vain { IfSome result (λ v. found ≡ None) }
        ensures search { let shape = sight.now.shape.now in IfSome result (λ v. v ≡ record {
          epoch = epoch;
          turns = turn_count shape;
          ahead = shape.ahead;
          filter = sight.now.filter.now;
        }) }
    {
        // 64 positions are compared at a time, and of each log some numbers looked at
        if found.is_some() || logs < sight.shape.filter_bits as usize / 1024 {
            return None;
        }
        let filter = sight.filter.share().ok()?;
        Some(VainSearch {
            epoch,
            turns: sight.shape.turns(),
            ahead: sight.shape.ahead,
            filter,
        })
    }

    /// Whether a search over an epoch is the same, where the logs have the same positions and
    /// numbers are read ahead.
    pub(crate) fn is_over<D: Draws>(&self, sight: &Sight<D>, epoch: u32) -> bool
        ensures ahead { result ≡ true → sight.now.shape.now.ahead ≢ 0 }
        ensures same { let shape = sight.now.shape.now in result ≡ true → self.now ≡ record {
          epoch = epoch;
          turns = turn_count shape;
          ahead = shape.ahead;
          filter = sight.now.filter.now;
        } }
    {
        sight.shape.ahead != 0
            && self.epoch == epoch
            && self.turns == sight.shape.turns()
            && self.ahead == sight.shape.ahead
            && self.filter.is_same(sight.filter)
    }
}
