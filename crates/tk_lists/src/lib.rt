//! Facts of lists that the crates above share: beginnings, ranges, last elements, and changes element by element. It
//! has no code.
#![tactic(auto)]
