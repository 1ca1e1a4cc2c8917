//! Where marks stand.
ghost use Rattle.std.specs.Prelude.{◌≡◌, find, option_map};
ghost use Rattle.tk_frames.specs.declared.entry.Placed.{Placed};
ghost use Rattle.tk_frames.specs.Order.{is_mark_of};

use tk_frames::{Entry, Placed};

/// Whether an entry is the mark of this number.
fn is_mark(placed: &Placed, number: u32) -> bool
    ensures { result ≡ is_mark_of number placed.now }
{
    match &placed.entry {
        Entry::Write(_) => false,
        Entry::Mark(own) => *own == number,
    }
}

/// The position of a mark, if it stands.
pub(crate) fn mark_position(order: &[Placed], number: u32) -> Option<u64>
    ensures { let found = find (is_mark_of number) order.now in
        result ≡ option_map (λ (p : Placed). p.position) found }
{
    order
        .iter()
        .find(|placed| is_mark(placed, number))
        .map(|placed| placed.position)
}
