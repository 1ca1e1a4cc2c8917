//! Laws of the machine, each for every shape.
ghost use Rattle.tk_core.specs.Laws.{ServersReadAlike, EventsMayCome, EventsMakeOrders};
ghost use Rattle.tk_core.specs.Laws.{EpochsAreRead};

/// A read of two buckets is the same at any two servers.
pub fn servers_read_alike()
    ensures { ServersReadAlike }
{}

/// The events of an order may come one after the other.
pub fn events_may_come()
    ensures { EventsMayCome }
{}

/// After the events of an order the machine has that order, and its last mark is shown.
pub fn events_make_orders()
    ensures { EventsMakeOrders }
{}

/// After the events of a front of an order each server reads what stands before the front's last
/// mark.
pub fn epochs_are_read()
    ensures { EpochsAreRead }
{}
