//! What a search sees of a table, in one run.
ghost use Rattle.std.specs.Prelude.{◌≡◌, ◌+◌, ◌*◌, ◌<◌, ◌≤◌, not, length, map, take, drop, replicate};
ghost use Rattle.std.specs.Prelude.{position, All, Some, None, IfOk, IsSome};
ghost use Rattle.tk_place.specs.Place.{slots_of, lowest_empty};
ghost use Rattle.tk_place.specs.Table.{slot_at, IsBelow, leads_to_full};
ghost use Rattle.tk_table.specs.Rows.{with_other};

use crate::Memory;
use std::alloc::Global;
use std::marker::Model;
use tk_bucket::Step2;

/// For each slot of each bucket the other bucket of its entry, if it has one. They lie one bucket
/// after the other, so that a search reads few bytes that lie together; and it reads one byte to
/// tell whether a bucket has an empty slot.
#[derive(Debug, Drop)]
pub(crate) struct Index {
    buckets: u32,
    depth: u32,
    others: Vec<u32>,
    used: Vec<bool>,
    full: Vec<bool>,
}

impl Model for Index {
    ghost use Rattle.tk_place.specs.Place.{Others};
    ghost use Rattle.tk_table.specs.Rows.{rows, slots_in, IsIndex};

    ghost Value = { Others };

    ghost view = { λ x. rows x.buckets x.depth (slots_in x.others.items x.used.items) };

    ghost invariant = { λ x. IsIndex x.buckets x.depth x.others.items x.used.items x.full.items };
}

/// The part of a run that is a bucket's.
fn part<T>(run: &[T], bucket: u32, depth: u32) -> &[T]
    requires within { bucket * depth + depth ≤ length run.now }
    requires small { length run.now ≤ 131072 }
    ensures { result.now ≡ take depth (drop (bucket * depth) run.now) }
{
    let start = bucket as usize * depth as usize;
    &run[start..start + depth as usize]
}

/// The lowest of these slots that is not in use.
fn first_empty(used: &[bool]) -> Option<usize>
    ensures { result ≡ position (λ is_used. not is_used) used.now }
{
    used.iter().position(|is_used| !*is_used)
}

impl Index {
    /// Empty slots.
    pub fn new(alloc: Global, buckets: u32, depth: u32) -> Result<Index, Memory>
        requires buckets { buckets ≤ 16384 }
        requires depth { depth ≤ 8 }
        ensures { IfOk result (λ x. x ≡ replicate buckets (replicate depth None)) }
    {
        let slots = buckets as usize * depth as usize;
        Ok(Index {
            buckets,
            depth,
            others: vec![in alloc; 0u32; slots]?,
            used: vec![in alloc; false; slots]?,
            full: vec![in alloc; depth == 0; buckets as usize]?,
        })
    }

    /// The lowest empty slot of a bucket.
    pub fn free(&self, bucket: u32) -> Option<u32>
        requires { bucket < length self.now }
        ensures { result ≡ lowest_empty self.now bucket }
    {
        if self.full[bucket as usize] {
            return None;
        }
        match first_empty(part(&self.used, bucket, self.depth)) {
            Some(slot) => Some(slot as u32),
            None => None,
        }
    }

    /// The other bucket of the entry in a slot.
    pub fn other(&self, bucket: u32, slot: u32) -> u32
        requires { IsSome (slot_at self.now bucket slot) }
        ensures { slot_at self.now bucket slot ≡ Some result }
    {
        part(&self.others, bucket, self.depth)[slot as usize]
    }

    /// The other buckets of the entries in a full bucket.
    pub fn others(&self, bucket: u32) -> &[u32]
        requires within { bucket < length self.now }
        requires full { lowest_empty self.now bucket ≡ None }
        ensures { slots_of self.now bucket ≡ map (λ other. Some other) result.now }
    {
        part(&self.others, bucket, self.depth)
    }

    /// Whether the other bucket of each entry in a full bucket is full, too.
    pub fn leads_to_full(&self, bucket: u32) -> bool
        requires within { bucket < length self.now }
        requires full { lowest_empty self.now bucket ≡ None }
        requires named { All (IsBelow (length self.now)) (slots_of self.now bucket) }
        ensures { result ≡ leads_to_full self.now bucket }
    {
        let mut all = true;
        for other in self.others(bucket).iter() {
            all &= self.full[*other as usize];
        }
        all
    }

    /// Says what other bucket the entry in a slot has, if it has one.
    pub fn set(&mut self, at: Step2, other: Option<u32>)
        requires bucket { at.bucket < length self.old }
        requires slot { at.slot < length (slots_of self.old at.bucket) }
        ensures { self.new ≡ with_other self.old (at.bucket, at.slot) other }
    {
        let place = at.bucket as usize * self.depth as usize + at.slot as usize;
        self.others[place] = other.unwrap_or(0);
        self.used[place] = other.is_some();
        let empty = first_empty(part(&self.used, at.bucket, self.depth));
        self.full[at.bucket as usize] = empty.is_none();
    }
}
