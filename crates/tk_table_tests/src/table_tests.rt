ghost use Rattle.std.specs.Prelude.{◌≡◌, ◌+◌, ◌<◌, ◌≤◌, All, IfOk};

use std::alloc::Global;
use std::test::Fail;
use tk_answer::Blocks;
use tk_shape::Shape;
use tk_table::{Put, Snapshot, Table};

/// Eight buckets of so many slots, and blocks of 24 bytes.
fn shape(depth: u32, retained: u32) -> Result<Shape, Fail>
    ensures buckets { IfOk result (λ s. s.buckets ≡ 8) }
    ensures depth { IfOk result (λ s. s.depth ≡ depth) }
    ensures retained { IfOk result (λ s. s.retained ≡ retained) }
    ensures block { IfOk result (λ s. s.block ≡ 24) }
{
    let numbers = [2, 8, depth, retained, 24, 64, 1, 0, 2, 2, 1, 1];
    Ok(Shape::new(numbers).ok().ok_or("shape")?)
}

/// An empty table of that shape.
pub(crate) fn open(alloc: Global, depth: u32, retained: u32) -> Result<Table, Fail>
    ensures buckets { IfOk result (λ t. t.shape.buckets ≡ 8) }
    ensures block { IfOk result (λ t. t.shape.block ≡ 24) }
    ensures latest { IfOk result (λ t. All (λ p. p < 1) t.positions) }
{
    let shape = shape(depth, retained)?;
    Ok(Table::open(alloc, &shape).ok().ok_or("memory")?)
}

/// Puts a block of 24 bytes.
pub(crate) fn put(table: &mut Table, position: u64, pair: (u32, u32)) -> Put
    requires buckets { table.old.shape.buckets ≡ 8 }
    requires block { table.old.shape.block ≡ 24 }
    requires latest { All (λ p. p < position) table.old.positions }
    requires first { 1 ≤ position }
    requires pair { (pair.0 < 8) × (pair.1 < 8) }
    ensures buckets { table.new.shape.buckets ≡ 8 }
    ensures block { table.new.shape.block ≡ 24 }
    ensures latest { All (λ p. p < position + 1) table.new.positions }
{
    table.put(position, pair, &[7; 24])
}

/// Writes from position 1 on of these pairs, and what becomes of each.
type Puts = &'static [((u32, u32), Put)];

/// Puts writes, and answers the low byte of the position of each bucket's first slot.
fn play(
    alloc: Global,
    depth: u32,
    retained: u32,
    puts: &[((u32, u32), Put)],
) -> Result<[u8; 8], Fail> {
    let mut table = open(alloc, depth, retained)?;
    for i in 0..puts.len() {
        let (pair, want) = puts[i];
        if pair.0 >= 8 || pair.1 >= 8 {
            return Err("no bucket".into());
        }
        if put(&mut table, i as u64 + 1, pair) != want {
            return Err("put".into());
        }
    }
    let Ok(snapshot) = table.snapshot(alloc) else {
        return Err("memory".into());
    };
    Ok(positions(&snapshot))
}

/// The low byte of the position of each bucket's first slot.
fn positions(snapshot: &Snapshot) -> [u8; 8] {
    let mut all = [255; 8];
    for bucket in 0..8u32 {
        if bucket < snapshot.count() {
            all[bucket as usize] = snapshot.run(bucket).get(7).copied().unwrap_or(255);
        }
    }
    all
}

/// A third write of a pair is displaced, as is a second of one bucket twice.
const DISPLACED: Puts = &[
    ((0, 1), Put::Placed),
    ((0, 1), Put::Placed),
    ((0, 1), Put::Displaced),
    ((3, 3), Put::Placed),
    ((3, 3), Put::Displaced),
];

/// A displaced write counts among the latest.
const COUNTED: Puts = &[
    ((0, 0), Put::Placed),
    ((0, 0), Put::Displaced),
    ((0, 0), Put::Placed),
];

/// The last free slot is found.
const LAST: Puts = &[
    ((0, 1), Put::Placed),
    ((1, 2), Put::Placed),
    ((2, 3), Put::Placed),
    ((3, 4), Put::Placed),
    ((4, 5), Put::Placed),
    ((5, 6), Put::Placed),
    ((6, 7), Put::Placed),
    // all of them move on
    ((0, 0), Put::Placed),
    // the first leaves the one slot that is free then
    ((4, 4), Put::Placed),
    // the second leaves a slot that no move from the last bucket reaches
    ((7, 7), Put::Displaced),
];

/// Many writes of one pair.
const MANY: Puts = &[
    ((3, 3), Put::Placed),
    ((3, 3), Put::Placed),
    ((3, 3), Put::Displaced),
    ((1, 2), Put::Placed),
    ((1, 2), Put::Placed),
    ((2, 1), Put::Placed),
    ((2, 1), Put::Placed),
    ((1, 2), Put::Displaced),
    ((2, 1), Put::Displaced),
    // the first two leave, which were placed, and then one that was displaced
    ((3, 3), Put::Placed),
    ((3, 3), Put::Placed),
    ((3, 3), Put::Displaced),
];

/// How many slots a bucket has, how many writes are retained, and what the first slots hold after
/// so many of the writes.
const PLAYS: [(u32, u32, Puts, usize, [u8; 8]); 8] = [
    (1, 8, DISPLACED, 5, [1, 2, 0, 4, 0, 0, 0, 0]),
    // the oldest write leaves
    (
        1,
        2,
        &[((0, 1), Put::Placed); 3],
        3,
        [3, 2, 0, 0, 0, 0, 0, 0],
    ),
    (1, 2, COUNTED, 3, [3, 0, 0, 0, 0, 0, 0, 0]),
    (1, 8, LAST, 7, [1, 2, 3, 4, 5, 6, 7, 0]),
    (1, 8, LAST, 8, [8, 1, 2, 3, 4, 5, 6, 7]),
    (1, 8, LAST, 9, [8, 2, 3, 4, 9, 5, 6, 7]),
    (1, 8, LAST, 10, [8, 0, 3, 4, 9, 5, 6, 7]),
    (2, 9, MANY, 12, [0, 4, 6, 10, 0, 0, 0, 0]),
];

#[test]
fn first_slots_after_writes(rt: HostRuntime) -> Result<(), Fail> {
    for (depth, retained, puts, count, want) in PLAYS {
        let Some(puts) = puts.get(..count) else {
            return Err("few".into());
        };
        assert!(rt; play(rt.alloc(), depth, retained, puts)? == want);
    }
    Ok(())
}

#[test]
fn a_chain_moves_an_entry_and_no_entry_of_an_earlier_snapshot(rt: HostRuntime) -> Result<(), Fail> {
    let mut table = open(rt.alloc(), 1, 8)?;
    assert!(rt; put(&mut table, 1, (0, 1)) == Put::Placed);
    assert!(rt; put(&mut table, 2, (1, 2)) == Put::Placed);
    let Ok(early) = table.snapshot(rt.alloc()) else {
        return Err("memory".into());
    };
    assert!(rt; put(&mut table, 3, (0, 1)) == Put::Placed);
    let Ok(late) = table.snapshot(rt.alloc()) else {
        return Err("memory".into());
    };
    assert!(rt; positions(&early) == [1, 2, 0, 0, 0, 0, 0, 0]);
    assert!(rt; positions(&late) == [1, 3, 2, 0, 0, 0, 0, 0]);
    Ok(())
}

/// A table of which write 1 has the buckets 2 and 5 and lies in the second, and write 2 was
/// displaced. It keeps two writes.
fn restored(alloc: Global) -> Result<Table, Fail>
    ensures buckets { IfOk result (λ t. t.shape.buckets ≡ 8) }
    ensures depth { IfOk result (λ t. t.shape.depth ≡ 1) }
    ensures block { IfOk result (λ t. t.shape.block ≡ 24) }
    ensures latest { IfOk result (λ t. All (λ p. p < 3) t.positions) }
{
    let shape = shape(1, 2)?;
    let mut bytes = [0; 320];
    (bytes[207], bytes[211], bytes[215], bytes[239]) = (1, 2, 5, 9);
    let table = Table::restore(alloc, &shape, &[1, 2], &bytes);
    Ok(table.ok().ok_or("memory")?)
}

#[test]
fn a_restored_table_has_its_slots_and_positions(rt: HostRuntime) -> Result<(), Fail> {
    let table = restored(rt.alloc())?;
    assert!(rt; table.positions() == [1, 2].as_slice());
    for bucket in 0..8 {
        let slot = table.slot(bucket, 0);
        let want = if bucket == 5 {
            (1, 2, 5, Some(&9))
        } else {
            (0, 0, 0, Some(&0))
        };
        assert!(rt; (slot.position, slot.first, slot.second, slot.block.last()) == want);
    }
    Ok(())
}

/// Writes from position 3 on, and then the low bytes of the positions of the first slots.
const AFTER: [((u32, u32), Put, [u8; 8]); 4] = [
    // write 1 leaves the second of its buckets, and is no longer in the way
    ((5, 5), Put::Placed, [0, 0, 0, 0, 0, 3, 0, 0]),
    // write 2 leaves, which was displaced; nothing else does
    ((5, 5), Put::Displaced, [0, 0, 0, 0, 0, 3, 0, 0]),
    ((0, 1), Put::Placed, [5, 0, 0, 0, 0, 0, 0, 0]),
    ((0, 5), Put::Placed, [5, 0, 0, 0, 0, 6, 0, 0]),
];

#[test]
fn a_restored_table_goes_on(rt: HostRuntime) -> Result<(), Fail> {
    let mut table = restored(rt.alloc())?;
    for i in 0..AFTER.len() {
        let (pair, want, slots) = AFTER[i];
        if pair.0 >= 8 || pair.1 >= 8 {
            return Err("no bucket".into());
        }
        assert!(rt; put(&mut table, i as u64 + 3, pair) == want);
        let snapshot = table.snapshot(rt.alloc()).ok().ok_or("memory")?;
        assert!(rt; positions(&snapshot) == slots);
    }
    assert!(rt; table.positions() == [5, 6].as_slice());
    Ok(())
}
