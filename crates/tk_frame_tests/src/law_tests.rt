//! Its laws, each of which is a call.
use tk_frames::{before_a_mark, each_fault, lengths, one_spelling};

#[test]
fn laws_can_be_called(_rt: HostRuntime) {
    one_spelling();
    each_fault();
    lengths();
    before_a_mark();
}
