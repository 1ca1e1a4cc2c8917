//! Their laws, each of which is a call.
use tk_answer::parts_are_runs;
use tk_bits::{answers_join, last_is_computed, shares_join, sums_add};
use tk_kernel::pieces_and_bytes;

#[test]
fn laws_can_be_called(_rt: HostRuntime) {
    pieces_and_bytes();
    last_is_computed();
    shares_join();
    sums_add();
    answers_join();
    parts_are_runs();
}
