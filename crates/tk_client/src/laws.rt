//! What holds of all that a client asks.
ghost use Rattle.tk_client.specs.Laws.{AskedAreInRange, PairsAreInRange, VectorsAreWhole};
ghost use Rattle.tk_client.specs.Laws.{SeedsAreWhole};

/// What a client asks is in range for its shape: the frames, the two buckets, and the vectors and
/// seeds that are drawn, whatever the read is for.
pub fn asked_in_range()
    ensures frames { AskedAreInRange }
    ensures buckets { PairsAreInRange }
    ensures vectors { VectorsAreWhole }
    ensures seeds { SeedsAreWhole }
{}
