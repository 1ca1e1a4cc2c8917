//! Their laws, each of which is a call.
use tk_bloom::{pushes_are_shown, windows_go_on};
use tk_place::{fit_by_placements, placed_in_any_order};

#[test]
fn laws_can_be_called(_rt: HostRuntime) {
    windows_go_on();
    pushes_are_shown();
    fit_by_placements();
    placed_in_any_order();
}
