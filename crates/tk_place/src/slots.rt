ghost use Rattle.std.specs.Prelude.{◌≡◌, ◌<◌, ℕ, length, map, Some, None, IsSome};
ghost use Rattle.tk_place.specs.Place.{Others, slots_of, lowest_empty};
ghost use Rattle.tk_place.specs.Table.{slot_at, leads_to_full, IsTable};

/// A table as the search sees it: buckets of slots, each empty or with an entry that could also lie in one other
/// bucket.
pub trait Slots {
    /// For each bucket its slots, each empty or with the other bucket of its entry.
    ghost others: { Self → Others };

    /// The slots of each bucket.
    ghost depth: { Self → ℕ };

    /// How many buckets there are.
    fn buckets(&self) -> u32
        ensures { result ≡ length (others self.now) };

    /// How many slots each of them has: one at least. The other bucket of each entry is one of them.
    fn depth(&self) -> u32
        ensures depth { result ≡ depth self.now }
        ensures table { IsTable (depth self.now) (others self.now) };

    /// The lowest empty slot of a bucket.
    fn free(&self, bucket: u32) -> Option<u32>
        requires { bucket < length (others self.now) }
        ensures { result ≡ lowest_empty (others self.now) bucket };

    /// The other bucket of the entry in a slot.
    fn other(&self, bucket: u32, slot: u32) -> u32
        requires { IsSome (slot_at (others self.now) bucket slot) }
        ensures { slot_at (others self.now) bucket slot ≡ Some result };

    /// The other buckets of the entries in a full bucket, in slot order.
    fn others(&self, bucket: u32) -> &[u32]
        requires within { bucket < length (others self.now) }
        requires full { lowest_empty (others self.now) bucket ≡ None }
        ensures { slots_of (others self.now) bucket ≡ map (λ other. Some other) result.now };

    /// Whether the other bucket of each entry in a full bucket is full, too.
    fn leads_to_full(&self, bucket: u32) -> bool
        requires within { bucket < length (others self.now) }
        requires full { lowest_empty (others self.now) bucket ≡ None }
        ensures { result ≡ leads_to_full (others self.now) bucket };
}
