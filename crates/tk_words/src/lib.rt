//! The words that clients use, from a book of keys or from a tape of drawn bytes, behind one trait.
#![tactic(auto)]

mod book;
mod cells;
mod drawn;
mod draws;
mod keyed;
mod laws;
mod lifting;
mod log_seeds;
mod tape;

pub use book::Book;
pub use drawn::DrawnDraws;
pub use draws::Draws;
pub use keyed::KeyedDraws;
pub use laws::one_text_seals;
pub use lifting::{LiftError, lift_tape};
pub use log_seeds::{LogSeeds, is_same_seed};
pub use tape::{Tape, TapeError};
