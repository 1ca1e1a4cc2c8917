ghost use Rattle.std.specs.Prelude.{◌≡◌, ◌<◌, ◌≤◌, length, IfOk};
ghost use Rattle.tk_bucket.specs.Sizes.{IsSizes};

use std::alloc::Global;
use std::test::Fail;
use tk_answer::Blocks;
use tk_bucket::{Buckets, Memory, Packed, Step2, changes_lower_both};

const BLOCK: [u8; 24] = [0x77; 24];

/// An empty table, of which only the sizes are told.
fn wide(alloc: Global, buckets: u32, depth: u32, block: u32) -> Result<Buckets, Memory>
    requires { IsSizes buckets depth block }
    ensures buckets { IfOk result (λ b. b.contents.buckets ≡ buckets) }
    ensures depth { IfOk result (λ b. b.contents.depth ≡ depth) }
    ensures block { IfOk result (λ b. b.contents.block ≡ block) }
{
    Buckets::new(alloc, buckets, depth, block)
}

/// The bytes of buckets of four slots, where the first slot of bucket 17 has a record.
fn one_record(alloc: Global, len: usize) -> Result<Vec<u8>, Memory>
    requires { 2760 ≤ len }
    ensures { IfOk result (λ bytes. length bytes.items ≡ len) }
{
    let mut bytes = vec![in alloc; 0; len]?;
    (bytes[2727], bytes[2731], bytes[2735]) = (9, 17, 3);
    bytes[2736..2760].fill(0x77);
    Ok(bytes)
}

/// 256 buckets of four slots, of these bytes, of which only the sizes are told.
fn wide_of(alloc: Global, bytes: &[u8]) -> Result<Buckets, Memory>
    requires { length bytes.now ≡ 40960 }
    ensures buckets { IfOk result (λ b. b.contents.buckets ≡ 256) }
    ensures depth { IfOk result (λ b. b.contents.depth ≡ 4) }
    ensures block { IfOk result (λ b. b.contents.block ≡ 24) }
{
    Buckets::restore(alloc, 256, 4, 24, bytes)
}

/// The bytes of all buckets from number `i` on.
fn bytes_from(packed: &Packed, i: u32) -> Option<&[u8]> {
    if i < packed.count() {
        Some(packed.run(i))
    } else {
        None
    }
}

#[test]
fn slots_written_moved_and_cleared(rt: HostRuntime) -> Result<(), Fail> {
    let mut buckets = Buckets::new(rt.alloc(), 2, 2, 24).ok().ok_or("memory")?;
    assert!(rt; buckets.is_empty(1, 0));
    buckets.write_slot(1, 0, 0x0102030405060708, (0x090a0b0c, 0x0d0e0f10), &BLOCK);
    buckets.move_slot(Step2 { bucket: 1, slot: 0 }, Step2 { bucket: 0, slot: 1 });
    assert!(rt; buckets.is_empty(1, 0));
    let slot = buckets.slot(0, 1);
    assert_eq!(rt; slot.position, 0x0102030405060708);
    assert_eq!(rt; slot.first, 0x090a0b0c);
    assert_eq!(rt; slot.second, 0x0d0e0f10);
    assert_eq!(rt; slot.block, BLOCK.as_slice());
    buckets.clear_slot(0, 1);
    assert!(rt; buckets.is_empty(0, 1));
    assert_eq!(rt; buckets.slot(0, 1).block, [0; 24].as_slice());
    Ok(())
}

#[test]
fn snapshot_stays(rt: HostRuntime) -> Result<(), Fail> {
    let mut buckets = Buckets::new(rt.alloc(), 2, 2, 24).ok().ok_or("memory")?;
    buckets.write_slot(0, 1, 0x0102030405060708, (0x090a0b0c, 0x0d0e0f10), &BLOCK);
    let early = buckets.snapshot(rt.alloc()).ok().ok_or("memory")?;
    buckets.write_slot(1, 0, 1, (1, 0), &BLOCK);
    buckets.clear_slot(0, 1);
    let late = buckets.snapshot(rt.alloc()).ok().ok_or("memory")?;
    // the early one has the first record alone, and the late one the second
    let mut want = [0; 160];
    want[40..56].copy_from_slice(&[1, 2, 3, 4, 5, 6, 7, 8, 9, 10, 11, 12, 13, 14, 15, 16]);
    want[56..80].copy_from_slice(&BLOCK);
    assert!(rt; bytes_from(&early, 0).ok_or("bucket 0")? == want.as_slice());
    let mut want = [0; 80];
    want[7] = 1;
    want[11] = 1;
    want[16..40].copy_from_slice(&BLOCK);
    assert!(rt; bytes_from(&late, 1).ok_or("bucket 1")? == want.as_slice());
    assert!(rt; bytes_from(&late, 0).ok_or("bucket 0")?.len() == 160);
    Ok(())
}

#[test]
fn buckets_of_eight_slots(rt: HostRuntime) -> Result<(), Fail> {
    let mut buckets = wide(rt.alloc(), 64, 8, 24).ok().ok_or("memory")?;
    buckets.write_slot(63, 7, u64::MAX, (u32::MAX, 0), &BLOCK);
    let packed = buckets.snapshot(rt.alloc()).ok().ok_or("memory")?;
    assert!(rt; packed.count() == 64);
    assert!(rt; packed.width() == 320);
    let last = bytes_from(&packed, 63).ok_or("bucket 63")?;
    assert!(rt; last.len() == 320);
    assert!(rt; last.get(280..288) == Some([0xff; 8].as_slice()));
    assert!(rt; last.last() == Some(&0x77));
    Ok(())
}

/// How many pages there are, how many are shared, and how many are spare.
fn counts(buckets: &Buckets) -> [u32; 3] {
    [buckets.pages(), buckets.shared(), buckets.spare()]
}

/// Writes a record into the first slot of a bucket; the sizes stay.
fn write(buckets: &mut Buckets, bucket: u32, position: u64)
    requires bucket { bucket < buckets.old.contents.buckets }
    requires depth { buckets.old.contents.depth ≡ 4 }
    requires block { buckets.old.contents.block ≡ 24 }
    requires position { 1 ≤ position }
    ensures buckets { buckets.new.contents.buckets ≡ buckets.old.contents.buckets }
    ensures depth { buckets.new.contents.depth ≡ 4 }
    ensures block { buckets.new.contents.block ≡ 24 }
{
    buckets.write_slot(bucket, 0, position, (bucket, 1), &BLOCK);
}

/// Takes a snapshot; the sizes stay.
fn taken(alloc: Global, buckets: &mut Buckets) -> Result<Packed, Memory>
    ensures buckets { buckets.new.contents.buckets ≡ buckets.old.contents.buckets }
    ensures depth { buckets.new.contents.depth ≡ buckets.old.contents.depth }
    ensures block { buckets.new.contents.block ≡ buckets.old.contents.block }
{
    buckets.snapshot(alloc)
}

/// The rest of a bucket's page, whose first record has this position.
fn starts_with(packed: &Packed, i: u32, len: usize, position: u8) -> bool {
    match bytes_from(packed, i) {
        Some(bytes) => bytes.len() == len && bytes.get(7) == Some(&position),
        None => false,
    }
}

#[test]
fn pages_shared_and_changed(rt: HostRuntime) -> Result<(), Fail> {
    let mut buckets = wide(rt.alloc(), 256, 4, 24).ok().ok_or("memory")?;
    assert!(rt; counts(&buckets) == [16, 0, 0]);
    let early = taken(rt.alloc(), &mut buckets).ok().ok_or("memory")?;
    assert!(rt; counts(&buckets) == [16, 16, 16]);
    write(&mut buckets, 0, 7);
    assert!(rt; counts(&buckets) == [16, 15, 15]);
    write(&mut buckets, 1, 8);
    assert!(rt; counts(&buckets) == [16, 15, 15]);
    write(&mut buckets, 16, 9);
    assert!(rt; counts(&buckets) == [16, 14, 14]);
    let late = taken(rt.alloc(), &mut buckets).ok().ok_or("memory")?;
    assert!(rt; counts(&buckets) == [16, 16, 16]);
    // both snapshots keep their blocks
    write(&mut buckets, 0, 10);
    for (i, position) in [(0, 7), (1, 8), (16, 9), (255, 0)] {
        let len = 160 * (16 - i as usize % 16);
        let kept = starts_with(&early, i, len, 0) && starts_with(&late, i, len, position);
        assert!(rt; kept, "bucket {i}");
    }
    changes_lower_both();
    Ok(())
}

#[test]
fn restored_pages_are_owned_and_none_is_spare(rt: HostRuntime) -> Result<(), Fail> {
    let bytes = one_record(rt.alloc(), 40960).ok().ok_or("memory")?;
    let mut buckets = wide_of(rt.alloc(), bytes.as_slice()).ok().ok_or("memory")?;
    assert!(rt; counts(&buckets) == [16, 0, 0]);
    let slot = buckets.slot(17, 0);
    assert!(rt; (slot.position, slot.first, slot.second) == (9, 17, 3));
    assert!(rt; slot.block == BLOCK.as_slice());
    write(&mut buckets, 17, 10);
    assert!(rt; counts(&buckets) == [16, 0, 0]);
    let early = taken(rt.alloc(), &mut buckets).ok().ok_or("memory")?;
    assert!(rt; counts(&buckets) == [16, 16, 16]);
    write(&mut buckets, 18, 11);
    assert!(rt; counts(&buckets) == [16, 15, 15]);
    assert!(rt; starts_with(&early, 17, 2400, 10));
    assert!(rt; starts_with(&early, 18, 2240, 0));
    Ok(())
}
