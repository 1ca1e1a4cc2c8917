//! Turns, phases and ticks, and the histories that a run may have: in which order each turn's writes come, where the
//! mark of each phase stands, and which epoch each client reads. And histories as lines of a text tell them.
#![tactic(auto)]

mod due;
mod error;
mod history;
mod item;
mod laws;
mod raw;
mod told;
mod turns;

pub use error::HistoryError;
pub use history::{History, TurnOrder};
pub use item::{Item, Items};
pub use laws::{bad_line_is, lines_tell};
pub use raw::{RawHistory, RawKind, RawLine};
pub use tk_shape::Memory;
pub use turns::{closes, place, turn};
