//! Tests of the order among threads and of the board: `tk_order` and `tk_board`, by their public calls.
#![tactic(auto)]

#[cfg(test)]
mod board_tests;
#[cfg(test)]
mod order_tests;
