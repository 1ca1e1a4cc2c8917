//! Laws of the table, each for every shape.
ghost use Rattle.tk_table.specs.Laws.{LayoutHolds, DisplacedWithoutEnd};
ghost use Rattle.tk_table.specs.Laws.{RetainedAscends, RetainedInWindow, AsWritten};
ghost use Rattle.tk_table.specs.Laws.{SlotsReadBack, BucketsReadBack, AsRead};
ghost use Rattle.tk_table.specs.Places.{FewFindPlaces};

use tk_place::fit_by_placements;

/// What is retained is in the order of the records.
pub fn retained_ascends()
    ensures { RetainedAscends }
{}

/// What is retained is in the window.
pub fn retained_in_window()
    ensures { RetainedInWindow }
{}

/// A bucket's slots are read from its bytes again.
pub fn slots_read_back()
    ensures { SlotsReadBack }
{}

/// The table has just the retained records, each once and in one of its two buckets.
pub fn layout_holds()
    ensures { LayoutHolds }
{}

/// A write is displaced exactly where the search over what is left of the table has no end.
pub fn displaced_without_end()
    ensures { DisplacedWithoutEnd }
{}

/// What the slots of a pair's two buckets give is what the earliest retained record gives.
pub fn as_written()
    ensures { AsWritten }
{}

/// Each bucket is read from its bytes again.
pub fn buckets_read_back()
    ensures { BucketsReadBack }
{}

/// What the bytes of a pair's two buckets give is what the earliest retained record gives.
pub fn as_read()
    ensures { AsRead }
{}

/// A write is displaced only where as many records as a bucket has slots are kept beside it.
pub fn few_find_places()
    ensures { FewFindPlaces }
{
    fit_by_placements();
}
