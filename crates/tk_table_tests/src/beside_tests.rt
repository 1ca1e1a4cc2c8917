//! A table of pages beside one written plainly, through many writes.
ghost use Rattle.std.specs.Prelude.{◌≡◌, ◌+◌, ◌<◌, ◌≤◌, All, IfOk};

use crate::plain_table::{Entry, Slots, expire, store};
use crate::pressure::next_pair;
use std::alloc::Global;
use std::test::Fail;
use tk_answer::Blocks;
use tk_shape::Shape;
use tk_table::{Put, Snapshot, Table};

/// How many of the latest writes are retained; nearly as many as there are slots.
const RETAINED: usize = 250;

/// An empty table of 64 buckets of four slots, with blocks of 24 bytes.
fn open(alloc: Global) -> Result<Table, Fail>
    ensures buckets { IfOk result (λ t. t.shape.buckets ≡ 64) }
    ensures block { IfOk result (λ t. t.shape.block ≡ 24) }
    ensures latest { IfOk result (λ t. All (λ p. p < 1) t.positions) }
{
    let numbers = [2, 64, 4, 250, 24, 64, 1, 0, 2, 2, 1, 1];
    let shape = Shape::new(numbers).ok().ok_or("shape")?;
    Ok(Table::open(alloc, &shape).ok().ok_or("memory")?)
}

fn low_byte(position: u64) -> u8 {
    (position % 256) as u8
}

/// Puts a block that tells the position.
fn put(table: &mut Table, entry: Entry) -> Put
    requires buckets { table.old.shape.buckets ≡ 64 }
    requires block { table.old.shape.block ≡ 24 }
    requires latest { All (λ p. p < entry.position) table.old.positions }
    requires first { 1 ≤ entry.position }
    requires pair { (entry.pair.0 < 64) × (entry.pair.1 < 64) }
    ensures buckets { table.new.shape.buckets ≡ 64 }
    ensures block { table.new.shape.block ≡ 24 }
    ensures latest { All (λ p. p < entry.position + 1) table.new.positions }
{
    table.put(entry.position, entry.pair, &[low_byte(entry.position); 24])
}

/// Whether a slot's bytes are those of an entry.
fn spells(bytes: &[u8], entry: Option<Entry>) -> bool {
    let Some(entry) = entry else {
        return bytes.iter().all(|byte| *byte == 0);
    };
    bytes.get(..8) == Some(entry.position.to_be_bytes().as_slice())
        && bytes.get(8..12) == Some(entry.pair.0.to_be_bytes().as_slice())
        && bytes.get(12..16) == Some(entry.pair.1.to_be_bytes().as_slice())
        && bytes.get(16..40) == Some([low_byte(entry.position); 24].as_slice())
}

/// Whether a snapshot has these slots.
fn shows(snapshot: &Snapshot, slots: &Slots) -> bool {
    for bucket in 0..64u32 {
        if bucket >= snapshot.count() {
            return false;
        }
        let bytes = snapshot.run(bucket);
        for slot in 0..4usize {
            match bytes.get(40 * slot..40 * slot + 40) {
                Some(found) if spells(found, slots[bucket as usize][slot]) => {}
                _ => return false,
            }
        }
    }
    true
}

/// Puts many writes in both tables. Now and then takes a snapshot, and looks at it at once and
/// again after as many writes more.
fn many_writes(alloc: Global, count: u64) -> Result<u64, Fail>
    requires { count ≤ 1000000 }
{
    let mut table = open(alloc)?;
    let mut slots: Slots = [[None; 4]; 64];
    let mut latest = [0u64; RETAINED];
    let mut state = 1u64;
    let mut displaced = 0u64;
    let mut early = table.snapshot(alloc).ok().ok_or("memory")?;
    let mut early_slots = slots;
    for i in 0..count {
        let entry = Entry {
            position: i + 1,
            pair: next_pair(&mut state, 64),
        };
        expire(&mut slots, latest[i as usize % RETAINED]);
        latest[i as usize % RETAINED] = entry.position;
        let placed = store(&mut slots, entry);
        displaced = displaced.saturating_add(!placed as u64);
        if (put(&mut table, entry) == Put::Placed) != placed {
            return Err("put".into());
        }
        if i % 997 == 0 {
            let now = table.snapshot(alloc).ok().ok_or("memory")?;
            if !shows(&now, &slots) || !shows(&early, &early_slots) {
                return Err("slots".into());
            }
            early = now;
            early_slots = slots;
        }
    }
    Ok(displaced)
}

#[test]
fn sixty_thousand_writes_beside_a_plain_table(rt: HostRuntime) -> Result<(), Fail> {
    let displaced = many_writes(rt.alloc(), 60000)?;
    assert!(rt; displaced > 0 && displaced < 6000, "{displaced} displaced");
    Ok(())
}
