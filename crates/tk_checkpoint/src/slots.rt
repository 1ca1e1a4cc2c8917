//! The slots in a checkpoint.
ghost use Rattle.std.specs.Prelude.{◌≡◌, ◌*◌, ◌≤◌, ◌||◌, ◌++◌, ◌∷◌, ◌==◌, [], List, length, replicate, true, false};
ghost use Rattle.std.specs.List.{list_all};
ghost use Rattle.std.specs.Result.{result_err};
ghost use Rattle.tk_frames.specs.Slots.{slot_from};
ghost use Rattle.tk_table.specs.Table.{Slot};
ghost use Rattle.tk_table.specs.Restoring.{AreAscending, slots_spelled};
ghost use Rattle.tk_shape.specs.Lengths.{slot_len};
ghost use Rattle.tk_checkpoint.specs.Saved.{entry_len, table_len};
ghost use Rattle.tk_checkpoint.specs.Reading.{positions_from};
ghost use Rattle.tk_checkpoint.specs.Sound.{first_refusal, slot_checks_of, is_zeros, lies_in, is_new_entry};
ghost use Rattle.tk_checkpoint.specs.Finding.{flags};

use crate::RestoreError;
use crate::finding::note;
use tk_frames::{u32_at, u64_at};
use tk_shape::Shape;

/// The writes that a table of any shape keeps at most.
const MOST_RETAINED: usize = 131_072;

/// Refuses the first slot that is neither all zeros nor has an entry of its bucket, with one of the
/// window's positions, which no slot before it has. It takes no memory: what was found is noted on
/// the stack.
pub(crate) fn check_slots(
    shape: &Shape,
    count: u32,
    window: &[u8],
    table: &[u8],
) -> Result<(), RestoreError>
    requires few { count ≤ shape.now.retained }
    requires long { count * entry_len shape.now ≤ length window.now }
    requires ascending { AreAscending 1 (positions_from shape.now.hits count window.now) }
    requires whole { length table.now ≡ table_len shape.now }
    ensures { let positions = positions_from shape.now.hits count window.now in
        result_err result ≡ first_refusal (slot_checks_of shape.now positions (slots_spelled shape.now table.now)) }
{
    let mut room = [false; MOST_RETAINED];
    let (found, _) = room.split_at_mut(count as usize);
    check_each(shape, count, window, found, table)
}

/// The same, with a flag for each write, none of which is set.
fn check_each(
    shape: &Shape,
    count: u32,
    window: &[u8],
    found: &mut [bool],
    table: &[u8],
) -> Result<(), RestoreError>
    requires none_found { found.old ≡ replicate count false }
    requires long { count * entry_len shape.now ≤ length window.now }
    requires ascending { AreAscending 1 (positions_from shape.now.hits count window.now) }
    requires whole { length table.now ≡ table_len shape.now }
    ensures { let positions = positions_from shape.now.hits count window.now in
        result_err result ≡ first_refusal (slot_checks_of shape.now positions (slots_spelled shape.now table.now)) }
{
    let len = shape.slot_len() as usize;
    let mut rest = table;
    for n in 0..shape.buckets * shape.depth {
        let (slot, behind) = rest.split_at(len);
        let (bucket, at) = (n / shape.depth, n % shape.depth);
        if !is_sound_slot(shape, count, window, found, bucket, slot) {
            return Err(RestoreError::Slot { bucket, slot: at });
        }
        rest = behind;
    }
    Ok(())
}

/// Whether a slot of a bucket is sound behind others, the positions of which were found; then its
/// own is too.
fn is_sound_slot(
    shape: &Shape,
    count: u32,
    window: &[u8],
    found: &mut [bool],
    bucket: u32,
    slot: &[u8],
) -> bool
    requires long { count * entry_len shape.now ≤ length window.now }
    requires ascending { AreAscending 1 (positions_from shape.now.hits count window.now) }
    requires beside { length found.old ≡ count }
    requires whole { length slot.now ≡ slot_len shape.now }

    // whatever slots were looked at
    ensures sound { (earlier : List Slot) → let positions = positions_from shape.now.hits count window.now in
        found.old ≡ flags positions earlier
        → result ≡ (is_zeros (slot_from slot.now) || is_new_entry shape.now positions earlier bucket (slot_from slot.now)) }
    ensures noted { (earlier : List Slot) → let positions = positions_from shape.now.hits count window.now in
        found.old ≡ flags positions earlier → result ≡ true
        → found.new ≡ flags positions (earlier ++ slot_from slot.now ∷ []) }
{
    if is_zeros(slot) {
        return true;
    }
    if !lies_in(shape, bucket, slot) {
        return false;
    }
    note(shape, count, window, found, u64_at(slot, 0))
}

/// Whether a slot is all zeros.
fn is_zeros(slot: &[u8]) -> bool
    requires { 16 ≤ length slot.now }
    ensures { result ≡ is_zeros (slot_from slot.now) }
{
    let (_, block) = slot.split_at(16);
    u64_at(slot, 0) == 0 && u32_at(slot, 8) == 0 && u32_at(slot, 12) == 0 && all_zero(block)
}

fn all_zero(bytes: &[u8]) -> bool
    ensures { result ≡ list_all (λ b. b == 0) bytes.now }
{
    bytes.iter().all(|byte| *byte == 0)
}

/// Whether a slot has two buckets of the shape, and lies in one of them.
fn lies_in(shape: &Shape, bucket: u32, slot: &[u8]) -> bool
    requires { 16 ≤ length slot.now }
    ensures { result ≡ lies_in shape.now bucket (slot_from slot.now) }
{
    let (first, second) = (u32_at(slot, 8), u32_at(slot, 12));
    first < shape.buckets && second < shape.buckets && (first == bucket || second == bucket)
}
