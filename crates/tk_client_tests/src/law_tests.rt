//! Its laws, each of which is a call.
use tk_client::asked_in_range;

#[test]
fn laws_can_be_called(_rt: HostRuntime) {
    asked_in_range();
}
