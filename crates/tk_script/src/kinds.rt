/// Of which kinds a script may be that stands in a place.
#[derive(Clone, Copy, Debug, PartialEq, Eq)]
pub(crate) enum Kinds {
    Keyed,
    Drawn,
    Either,
}

impl Kinds {
    ghost use Rattle.std.specs.Prelude.{◌≡◌};
    ghost use Rattle.tk_script.specs.Reading.{may_be};

    /// Whether a keyed script may stand there, or a drawn one.
    pub(crate) fn allow(self, keyed: bool) -> bool
        ensures { result ≡ may_be self keyed }
    {
        match self {
            Kinds::Keyed => keyed,
            Kinds::Drawn => !keyed,
            Kinds::Either => true,
        }
    }
}
