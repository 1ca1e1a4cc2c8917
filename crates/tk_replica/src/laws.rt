//! Laws of what is kept, each for every shape.
ghost use Rattle.tk_replica.specs.Laws.{KeepsFromFloorToLast};

/// After any entries and releases the epochs from the number that was released last to the number
/// of marks are kept.
pub fn kept_from_floor_to_last()
    ensures { KeepsFromFloorToLast }
{}
