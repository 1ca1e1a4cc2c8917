//! The slots in a page's bytes.
ghost use Rattle.std.specs.Prelude.{◌≡◌, length};
ghost use Rattle.tk_bucket.specs.Table.{slot_at, with_slot};
ghost use Rattle.tk_bucket.specs.Shown.{Shows, shown};
ghost use Rattle.tk_bucket.specs.Packing.{IsWhole, IsPlace, table_of};

use crate::sizes::Sizes;
use crate::slot::{put_slot, read_slot};
use crate::{SlotRef, Step2};

pub(crate) fn slot_at(sizes: Sizes, bytes: &[u8], place: Step2) -> SlotRef<'_>
    requires whole { IsWhole sizes bytes.now }
    requires place { IsPlace sizes place }
    ensures { Shows result (slot_at (table_of sizes bytes.now) (place.bucket, place.slot)) }
{
    let start = sizes.slot_start(place);
    let end = start + sizes.slot_len();
    read_slot(&bytes[start..end])
}

pub(crate) fn write_slot(sizes: Sizes, bytes: &mut [u8], place: Step2, slot: SlotRef<'_>)
    requires whole { IsWhole sizes bytes.old }
    requires place { IsPlace sizes place }
    requires block { length slot.block.now ≡ sizes.block }
    ensures len { length bytes.new ≡ length bytes.old }
    ensures table { let T = table_of sizes bytes.old in
        table_of sizes bytes.new ≡ with_slot T (place.bucket, place.slot) (shown slot.entry) }
{
    let start = sizes.slot_start(place);
    let end = start + sizes.slot_len();
    let bytes = &mut bytes[start..end];
    put_slot(bytes, slot.position, slot.first, slot.second, slot.block);
}
