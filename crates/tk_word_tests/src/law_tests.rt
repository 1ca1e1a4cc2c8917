//! Their laws, each of which is a call.
use tk_seal::opens_what_seals;
use tk_words::one_text_seals;

#[test]
fn laws_can_be_called(_rt: HostRuntime) {
    one_text_seals();
    opens_what_seals();
}
