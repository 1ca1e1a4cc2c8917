//! The buckets of writes, read back from their slots.
ghost use Rattle.std.specs.Prelude.{◌≡◌, ℕ, ◌*◌, ◌<◌, length, All, IfOk};
ghost use Rattle.tk_shape.specs.Lengths.{width};
ghost use Rattle.tk_table.specs.Stands.{IsPair};
ghost use Rattle.tk_table.specs.Inside.{IsKnown};
ghost use Rattle.tk_table.specs.Restoring.{AreAscending, AreSound, slots_spelled, slot_number};
ghost use Rattle.tk_table.specs.Restoring.{learned};

use crate::Memory;
use std::alloc::Global;
use tk_frames::{u32_at, u64_at};
use tk_shape::Shape;

/// The two buckets of the write of each position, as its entry in the bytes of a table has them. A
/// write that was displaced has no entry: it gets bucket 0 twice, since nothing of it will be
/// cleared.
pub(crate) fn pairs_of(
    alloc: Global,
    shape: &Shape,
    positions: &[u64],
    bytes: &[u8],
) -> Result<Vec<(u32, u32)>, Memory>
    requires ascending { AreAscending 1 positions.now }
    requires whole { length bytes.now ≡ shape.now.buckets * width shape.now }
    requires sound { AreSound shape.now positions.now (slots_spelled shape.now bytes.now) }
    ensures beside { IfOk result (λ pairs. length pairs.items ≡ length positions.now) }
    ensures pairs { IfOk result (λ pairs. All (IsPair shape.now) pairs.items) }
    ensures known { let slots = slots_spelled shape.now bytes.now in
        IfOk result (λ pairs. (n : ℕ) → n < length slots
        → IsKnown positions.now pairs.items (slot_number slots n)) }
{
    let len = shape.slot_len() as usize;
    let mut pairs = vec![in alloc; (0u32, 0u32); positions.len()]?;
    let mut rest = bytes;
    for _read in 0..shape.buckets * shape.depth {
        let (slot, others) = rest.split_at(len);
        let pair = (u32_at(slot, 8), u32_at(slot, 12));
        learn(&mut pairs, positions, u64_at(slot, 0), pair);
        rest = others;
    }
    Ok(pairs)
}

/// Keeps a pair beside its position, if that is one of the positions.
fn learn(pairs: &mut Vec<(u32, u32)>, positions: &[u64], position: u64, pair: (u32, u32))
    requires beside { length pairs.old.items ≡ length positions.now }
    requires ascending { AreAscending 1 positions.now }
    ensures { pairs.new.items ≡ learned positions.now pairs.old.items position pair }
{
    if let Ok(i) = positions.binary_search(&position) {
        pairs[i] = pair;
    }
}
