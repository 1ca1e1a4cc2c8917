//! Tests of keys and words: `tk_handle`, `tk_seal`, `tk_choice` and `tk_words`, by their public calls.
#![tactic(auto)]

#[cfg(test)]
mod choice_tests;
#[cfg(test)]
mod handle_tests;
#[cfg(test)]
mod law_tests;
#[cfg(test)]
mod seal_tests;
#[cfg(test)]
mod word_tests;
