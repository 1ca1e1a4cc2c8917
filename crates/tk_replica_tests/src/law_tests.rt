//! The laws of the pure machine, each of which is a call.
use tk_core::{epochs_are_read, events_make_orders, events_may_come, servers_read_alike};

#[test]
fn laws_can_be_called(_rt: HostRuntime) {
    servers_read_alike();
    events_may_come();
    events_make_orders();
    epochs_are_read();
}
