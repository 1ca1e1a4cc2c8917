//! One order of entries among seats, which threads share.
#![tactic(auto)]

mod blank;
mod counts;
mod journal;
mod order;
mod rule;
mod seat;
mod stored;

pub use blank::Blank;
pub use journal::Journal;
pub use order::Order;
pub use rule::Naming;
pub use seat::OrderSeat;
pub use tk_shape::Memory;
