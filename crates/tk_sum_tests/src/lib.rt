//! Tests of sums, shares and answers: `tk_kernel`, `tk_bits` and `tk_answer`, by their public calls.
#![tactic(auto)]

#[cfg(test)]
mod answer_tests;
#[cfg(test)]
mod bit_tests;
#[cfg(test)]
mod kernel_tests;
#[cfg(test)]
mod law_tests;
