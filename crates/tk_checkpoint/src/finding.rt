//! The positions of a window, found one by one.
ghost use Rattle.std.specs.Prelude.{◌≡◌, ◌*◌, ◌≤◌, ◌&&◌, ◌++◌, ◌∷◌, ◌==◌, [], List, length, not, true};
ghost use Rattle.std.specs.List.{list_any};
ghost use Rattle.tk_table.specs.Table.{Slot};
ghost use Rattle.tk_table.specs.Restoring.{AreAscending};
ghost use Rattle.tk_checkpoint.specs.Saved.{entry_len};
ghost use Rattle.tk_checkpoint.specs.Reading.{positions_from};
ghost use Rattle.tk_checkpoint.specs.Sound.{has_slot};
ghost use Rattle.tk_checkpoint.specs.Finding.{flags, IsPlaceOf};

use crate::head::entry_len;
use tk_frames::u64_at;
use tk_shape::Shape;

/// Notes a position as found, if it is one of the window's and wasn't found before. `found` has a
/// flag for each of the window's.
pub(crate) fn note(
    shape: &Shape,
    count: u32,
    window: &[u8],
    found: &mut [bool],
    position: u64,
) -> bool
    requires long { count * entry_len shape.now ≤ length window.now }
    requires ascending { AreAscending 1 (positions_from shape.now.hits count window.now) }
    requires beside { length found.old ≡ count }

    // whatever slots were looked at
    ensures new { (earlier : List Slot) → let positions = positions_from shape.now.hits count window.now in
        found.old ≡ flags positions earlier
        → result ≡ (list_any (λ p. p == position) positions && not (has_slot earlier position)) }
    ensures noted { (earlier : List Slot) (s : Slot) → let positions = positions_from shape.now.hits count window.now in
        found.old ≡ flags positions earlier → s.position ≡ position → result ≡ true
        → found.new ≡ flags positions (earlier ++ s ∷ []) }
{
    let Some(place) = place_of(shape, count, window, position) else {
        return false;
    };
    if found[place] {
        return false;
    }
    found[place] = true;
    true
}

/// The place of a position among those of a window, which ascend.
fn place_of(shape: &Shape, count: u32, window: &[u8], position: u64) -> Option<usize>
    requires long { count * entry_len shape.now ≤ length window.now }
    requires ascending { AreAscending 1 (positions_from shape.now.hits count window.now) }
    ensures { IsPlaceOf (positions_from shape.now.hits count window.now) position result }
{
    let len = entry_len(shape);
    let mut low = 0;
    let mut high = count as usize;
    while low < high {
        let middle = (low + high) / 2;
        let there = u64_at(window, middle * len);
        if there == position {
            return Some(middle);
        }
        if there < position {
            low = middle + 1;
        } else {
            high = middle;
        }
    }
    None
}
