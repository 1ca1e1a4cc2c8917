//! A table written plainly, by what its layout is defined to be: for 64 buckets of four slots.

/// A record that is stored.
#[derive(Clone, Copy, Debug, PartialEq, Eq)]
pub(crate) struct Entry {
    pub position: u64,
    pub pair: (u32, u32),
}

/// The slots of 64 buckets.
pub(crate) type Slots = [[Option<Entry>; 4]; 64];

/// A slot of a bucket.
#[derive(Clone, Copy)]
struct SlotPlace {
    bucket: u32,
    slot: usize,
}

/// A bucket that a search has come to, and the number of the one before it and the slot there whose
/// entry named it.
#[derive(Clone, Copy)]
struct Named {
    bucket: u32,
    by: Option<(usize, usize)>,
}

/// The buckets that a search has come to, in order.
#[derive(Clone, Copy)]
struct Search {
    found: [Named; 64],
    len: usize,
}

impl Search {
    /// Of a pair of buckets.
    fn from_pair(pair: (u32, u32)) -> Search {
        let nowhere = Named {
            bucket: 0,
            by: None,
        };
        let mut search = Search {
            found: [nowhere; 64],
            len: 0,
        };
        search.name(pair.0, None);
        search.name(pair.1, None);
        search
    }

    /// Comes to a bucket, if it hasn't before.
    fn name(&mut self, bucket: u32, by: Option<(usize, usize)>) {
        for i in 0..64usize {
            if i >= self.len {
                self.found[i] = Named { bucket, by };
                self.len = i + 1;
                return;
            }
            if self.found[i].bucket == bucket {
                return;
            }
        }
    }

    /// The first bucket with an empty slot, by its number, and that slot. Each bucket before it
    /// names the other buckets of its entries.
    fn end(&mut self, slots: &Slots) -> Option<(usize, usize)> {
        for i in 0..64usize {
            if i >= self.len {
                return None;
            }
            let bucket = self.found[i].bucket;
            let row = slots[bucket as usize % 64];
            for slot in 0..4usize {
                match row[slot] {
                    None => return Some((i, slot)),
                    Some(entry) => self.name(other_of(entry.pair, bucket), Some((i, slot))),
                }
            }
        }
        None
    }
}

fn other_of(pair: (u32, u32), bucket: u32) -> u32 {
    if pair.0 == bucket { pair.1 } else { pair.0 }
}

/// Empties the slot of the record of a position.
pub(crate) fn expire(slots: &mut Slots, position: u64) {
    for bucket in 0..64usize {
        for slot in 0..4usize {
            if let Some(entry) = slots[bucket][slot]
                && entry.position == position
            {
                slots[bucket][slot] = None;
            }
        }
    }
}

/// Stores a record, and moves others back along the chain to its end; or says that there is none.
pub(crate) fn store(slots: &mut Slots, entry: Entry) -> bool {
    let mut search = Search::from_pair(entry.pair);
    let Some((mut at, mut slot)) = search.end(slots) else {
        return false;
    };
    for _ in 0..64 {
        let named = search.found[at % 64];
        let Some((before, from)) = named.by else {
            slots[named.bucket as usize % 64][slot % 4] = Some(entry);
            return true;
        };
        let bucket = search.found[before % 64].bucket;
        slots[named.bucket as usize % 64][slot % 4] = slots[bucket as usize % 64][from % 4];
        at = before;
        slot = from;
    }
    false
}
