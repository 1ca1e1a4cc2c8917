//! Its laws, each of which is a call.
use tk_script::{numbers_sent_once, one_input, printed_reads};

#[test]
fn laws_can_be_called(_rt: HostRuntime) {
    printed_reads();
    one_input();
    numbers_sent_once();
}
