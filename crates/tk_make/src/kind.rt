ghost use Rattle.std.specs.Prelude.{◌≡◌};
ghost use Rattle.tk_make.specs.Tallies.{is_of};

use tk_client::Got;

/// What is counted of what followers got: texts, or numbers reported absent.
#[derive(Clone, Copy, Drop)]
pub(crate) enum Kind {
    Delivered,
    Absent,
}

/// Whether what a number gave is of a kind.
pub(crate) fn is_of(kind: Kind, got: &Got) -> bool
    ensures { result ≡ is_of kind got.now }
{
    match (kind, got) {
        (Kind::Delivered, Got::Text(_)) | (Kind::Absent, Got::Absent) => true,
        _ => false,
    }
}
