//! Its laws, each of which is a call.
use tk_schedule::{bad_line_is, lines_tell};

#[test]
fn laws_can_be_called(_rt: HostRuntime) {
    lines_tell();
    bad_line_is();
}
