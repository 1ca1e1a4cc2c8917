use crate::{DrawnDraws, KeyedDraws};

/// Where the words of a run come from: keys, or a tape.
#[derive(Drop)]
pub enum Book {
    Keyed(KeyedDraws),
    Drawn(DrawnDraws),
}
