use crate::Items;
use std::marker::Model;
use tk_shape::Words;

/// What a line of a history says.
#[derive(Debug, Drop)]
pub enum RawKind {
    /// The order of a turn's writes and marks.
    Order {
        phase: u32,
        tick: u32,
        items: Items,
    },
    /// The epoch that each client reads in a turn.
    Reads {
        phase: u32,
        tick: u32,
        epochs: Words,
    },
    /// Nothing more.
    End,
}

/// A line of a history as it was read, and its number in the text that it comes from.
#[derive(Debug, Drop)]
pub struct RawLine {
    pub line: u64,
    pub kind: RawKind,
}

/// Lines of a history as they were read, seen as their list. The last one alone is an `End`; else they may say what no
/// run does.
#[derive(Debug, Drop)]
pub struct RawHistory {
    lines: Vec<RawLine>,
}

impl Model for RawHistory {
    ghost use Rattle.std.specs.Prelude.{List, IsTrue};
    ghost use Rattle.tk_schedule.specs.declared.raw.RawLine.{RawLine};
    ghost use Rattle.tk_schedule.specs.Raw.{ends_once};

    ghost Value = { List RawLine };

    ghost view = { λ h. h.lines.items };

    ghost invariant = { λ h. IsTrue (ends_once h.lines.items) };
}

impl RawHistory {
    ghost use Rattle.std.specs.Prelude.{◌≡◌, IsTrue};
    ghost use Rattle.tk_schedule.specs.Raw.{ends_once};

    pub fn from_vec(items: Vec<RawLine>) -> RawHistory
        requires { IsTrue (ends_once items.items) }
        ensures { result ≡ items.items }
    {
        RawHistory { lines: items }
    }

    pub fn as_slice(&self) -> &[RawLine]
        ensures lines { result.now ≡ self.now }
        ensures ends { IsTrue (ends_once self.now) }
    {
        self.lines.as_slice()
    }

    pub fn into_vec(self) -> Vec<RawLine>
        ensures lines { result.items ≡ self }
        ensures ends { IsTrue (ends_once self) }
    {
        self.lines
    }
}
