//! Its laws, each of which is a call.
use tk_table::{
    as_read, as_written, buckets_read_back, displaced_without_end, layout_holds, retained_ascends,
    retained_in_window, slots_read_back,
};

#[test]
fn laws_can_be_called(_rt: HostRuntime) {
    layout_holds();
    displaced_without_end();
    retained_ascends();
    retained_in_window();
    as_written();
    slots_read_back();
    buckets_read_back();
    as_read();
}
