//! Tests of what a table is made of: `tk_place`, `tk_pool`, `tk_bucket` and `tk_bloom`, by their public calls.
#![tactic(auto)]

#[cfg(test)]
mod bloom_tests;
#[cfg(test)]
mod bucket_tests;
#[cfg(test)]
mod law_tests;
#[cfg(test)]
mod place_tests;
#[cfg(test)]
mod pool_tests;
