//! Why what the server in between sees of a read fits any two buckets, and why the client reads what it would have read.
ghost use Rattle.tk_relay.specs.Counts.{AsManyPads, PadsAreCut, PadsAreSpelled};
ghost use Rattle.tk_relay.specs.RelayedSights.{TapGainsSight, TapGainsTheSame};
ghost use Rattle.tk_relay.specs.Laws.{SameSight, MovedBack, MovedStay, RepliesJoin, HonestRepliesJoin};

/// What the server in between sees of a read is the same for any two buckets, after a change of the last server's pads.
pub fn same_sight()
    ensures { SameSight }
{}

/// The change of the pads is one to one among the pads of a shape: changed they are pads of it too, and changed back
/// they are the pads again.
pub fn moved_back()
    ensures back { MovedBack }
    ensures stay { MovedStay }
{}

/// Pads that are bytes are cut from one list of so many bytes, and each such list is cut into such pads.
pub fn pads_are_bytes()
    ensures cut { PadsAreCut }
    ensures spelled { PadsAreSpelled }
{}

/// So the server in between sees the same things of reads of any two buckets over as many pads.
pub fn as_many_pads()
    ensures { AsManyPads }
{}

/// The replies made of the one reply join to the blocks that those of all servers join to.
pub fn replies_join()
    ensures blocks { RepliesJoin }
    ensures honest { HonestRepliesJoin }
{}

/// Of a relayed read of a run the tap of the server in between gains the sight of the read and nothing else, which is
/// what it would gain of a read of any other buckets with the changed pads.
pub fn tap_gains_sight()
    ensures sight { TapGainsSight }
    ensures same { TapGainsTheSame }
{}
