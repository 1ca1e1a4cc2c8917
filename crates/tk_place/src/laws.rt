ghost use Rattle.tk_place.specs.Pairs.{FitsByPlacements, PlacedInAnyOrder};

/// Pairs fit exactly where a placement of them exists.
pub fn fit_by_placements()
    ensures { FitsByPlacements }
{}

/// A placement exists for pairs in any order, and with the buckets of each in any order, or for none.
pub fn placed_in_any_order()
    ensures { PlacedInAnyOrder }
{}
