ghost use Rattle.std.specs.Prelude.{◌≡◌};
ghost use Rattle.tk_shape.specs.Names.{field_name};

/// What two shapes may differ in, or what limits a run: a shape's format, one of its twelve numbers, or a product of
/// them.
#[derive(Clone, Copy, Debug, PartialEq, Eq)]
pub enum Field {
    Format,
    Servers,
    Buckets,
    Depth,
    Retained,
    Block,
    Filter,
    Hits,
    Ahead,
    Clients,
    Phases,
    Ticks,
    Logs,
    /// Writes in a whole run: clients times phases times ticks.
    Schedule,
    /// Bytes of a server's table.
    Table,
    /// Bytes of table that all servers of a run go over.
    Work,
    /// Bytes of a tape of drawn words.
    Tape,
}

impl Field {
    /// The word that fault lines print.
    pub fn name(self) -> &'static [u8]
        ensures { result.now ≡ field_name self }
    {
        match self {
            Field::Format => b"format",
            Field::Servers => b"servers",
            Field::Buckets => b"buckets",
            Field::Depth => b"depth",
            Field::Retained => b"retained",
            Field::Block => b"block",
            Field::Filter => b"filter",
            Field::Hits => b"hits",
            Field::Ahead => b"ahead",
            Field::Clients => b"clients",
            Field::Phases => b"phases",
            Field::Ticks => b"ticks",
            Field::Logs => b"logs",
            Field::Schedule => b"schedule",
            Field::Table => b"table",
            Field::Work => b"work",
            Field::Tape => b"tape",
        }
    }
}
