ghost use Rattle.std.specs.Prelude.{◌≡◌, ◌<◌, ◌≤◌, ◌+◌, ◌↔◌, ◌++◌, ◌∷◌, true, false};
ghost use Rattle.std.specs.Prelude.{length, map, take, MatchOption, Some, None};
ghost use Rattle.tk_place.specs.Place.{fit, lowest_empty, slots_of, named_in, not_before, search_end};
ghost use Rattle.tk_place.specs.Pairs.{pairs_with, HasPlacement};
ghost use Rattle.tk_place.specs.Chain.{IsAnswer, AreMoves, IsBlocked};
ghost use Rattle.tk_place.specs.Search.{IsEnd, AreFull, IsFirst, LeadToFull, IsLeading, IsBehind};
ghost use Rattle.tk_place.specs.Table.{IsTable, leads_to_full, others_lead_to_full};
ghost use Rattle.tk_place.specs.Views.{place_at, spot_of};

use crate::queue::{Link, Queue};
use crate::{Scratch, Slots, Step};

/// What a search found.
#[derive(Clone, Copy, Debug, PartialEq, Eq, Drop)]
pub enum Found {
    /// A chain of so many steps, which the scratch has.
    Chain(u32),

    /// No placement of the entries and the new one exists.
    NoPlace,
}

/// Where a search ended.
#[derive(Clone, Copy, Drop)]
struct End {
    place: u32,
    slot: u32,
}

/// Looks for a place for a new entry, in order: its first bucket, then the second, then the other bucket of each entry
/// in a full one. It queues each bucket at most once, and ends at the first that has an empty slot.
pub fn find<V: Slots>(slots: &V, new: (u32, u32), scratch: &mut Scratch) -> Found
    requires first { new.0 < length (V.others slots.now) }
    requires second { new.1 < length (V.others slots.now) }
    requires size { scratch.old.buckets ≡ length (V.others slots.now) }

    ensures size { scratch.new.buckets ≡ scratch.old.buckets }
    ensures answer { IsAnswer (V.others slots.now) new result scratch.new.steps }
    ensures moves { AreMoves (V.others slots.now) new scratch.new.steps }

    // never because the search gave up
    ensures no_place { let T = V.others slots.now in
        (result ≡ Found.NoPlace)
        ↔ (¬ HasPlacement (length T) (V.depth slots.now) (pairs_with T new)) }
    ensures not_fit { let T = V.others slots.now in
        (result ≡ Found.NoPlace)
        ↔ (fit (length T) (V.depth slots.now) (pairs_with T new) ≡ false) }
    ensures blocked { result ≡ Found.NoPlace → IsBlocked (V.others slots.now) new }
{
    match search(slots, new, &mut scratch.queue) {
        Some(end) => {
            scratch.count = write_steps(&scratch.queue, end, &mut scratch.steps);
            Found::Chain(scratch.count)
        }
        None => {
            scratch.count = 0;
            Found::NoPlace
        }
    }
}

/// Where the search ends, if it does.
fn search<V: Slots>(slots: &V, new: (u32, u32), queue: &mut Queue) -> Option<End>
    requires first { new.0 < length (V.others slots.now) }
    requires second { new.1 < length (V.others slots.now) }
    requires size { queue.old.buckets ≡ length (V.others slots.now) }
    ensures table { IsTable (V.depth slots.now) (V.others slots.now) }
    ensures size { queue.new.buckets ≡ queue.old.buckets }
    ensures found { let T = V.others slots.now in
        MatchOption result (search_end T new ≡ None) (IsEnd T new queue.new.places) }
{
    queue.clear();
    queue.add(new.0, None);
    queue.add(new.1, None);
    let depth = slots.depth();
    if let Some(end) = first_with_room(slots, queue) {
        return Some(end);
    }
    if let Some(leading) = first_leading(slots, queue, 0) {
        return end_behind(slots, depth, leading, queue);
    }
    let mut place = 0;
    while place < queue.len() {
        let tried = queue.len();
        add_others(slots, depth, place, queue);
        if let Some(leading) = first_leading_behind(slots, queue, place, tried) {
            return end_behind(slots, depth, leading, queue);
        }
        place += 1;
    }
    None
}

/// The first place whose bucket has an empty slot, and the lowest such slot.
fn first_with_room<V: Slots>(slots: &V, queue: &Queue) -> Option<End>
    requires size { queue.now.buckets ≡ length (V.others slots.now) }
    ensures { let T = V.others slots.now in
        let places = queue.now.places in
        MatchOption result (AreFull T places 0 (length places)) (IsFirst T places 0) }
{
    let mut place = 0;
    while place < queue.len() {
        if let Some(slot) = slots.free(queue.bucket(place)) {
            return Some(End { place, slot });
        }
        place += 1;
    }
    None
}

/// The first place from one on whose full bucket leads to one that isn't full. The search ends after
/// it, long before its turn comes to have its entries gone through.
fn first_leading<V: Slots>(slots: &V, queue: &Queue, from: u32) -> Option<u32>
    requires size { queue.now.buckets ≡ length (V.others slots.now) }
    requires table { IsTable (V.depth slots.now) (V.others slots.now) }
    requires full { let places = queue.now.places in
        AreFull (V.others slots.now) places 0 (length places) }
    requires from { from ≤ length queue.now.places }
    ensures { let T = V.others slots.now in
        let places = queue.now.places in
        MatchOption result (LeadToFull T places from (length places)) (IsLeading T places from) }
{
    let mut place = from;
    while place < queue.len() {
        if !slots.leads_to_full(queue.bucket(place)) {
            return Some(place);
        }
        place += 1;
    }
    None
}

/// The same, where only what the entries in the bucket at a place name comes from there on. Mostly one
/// pass over these buckets finds that none leads to one that isn't full.
fn first_leading_behind<V: Slots>(slots: &V, queue: &Queue, place: u32, from: u32) -> Option<u32>
    requires size { queue.now.buckets ≡ length (V.others slots.now) }
    requires table { IsTable (V.depth slots.now) (V.others slots.now) }
    requires full { let places = queue.now.places in
        AreFull (V.others slots.now) places 0 (length places) }
    requires from { from ≤ length queue.now.places }
    requires place { place < length queue.now.places }
    requires led { let at = place_at queue.now.places place in
        leads_to_full (V.others slots.now) at.bucket ≡ true }
    requires behind { let T = V.others slots.now in
        let places = queue.now.places in
        others_lead_to_full T (place_at places place).bucket ≡ true
        → LeadToFull T places from (length places) }
    ensures { let T = V.others slots.now in
        let places = queue.now.places in
        MatchOption result (LeadToFull T places from (length places)) (IsLeading T places from) }
{
    if others_lead_to_full(slots, queue.bucket(place)) {
        return None;
    }
    first_leading(slots, queue, from)
}

/// Whether the other bucket of each entry in a bucket leads to full ones alone, as the bucket does. It
/// goes through all of them, so that one branch depends on the answers, and that one goes mostly one way.
fn others_lead_to_full<V: Slots>(slots: &V, bucket: u32) -> bool
    requires table { IsTable (V.depth slots.now) (V.others slots.now) }
    requires within { bucket < length (V.others slots.now) }
    requires full { lowest_empty (V.others slots.now) bucket ≡ None }
    requires led { leads_to_full (V.others slots.now) bucket ≡ true }
    ensures { result ≡ others_lead_to_full (V.others slots.now) bucket }
{
    let mut all = true;
    for other in slots.others(bucket).iter() {
        all &= slots.leads_to_full(*other);
    }
    all
}

/// Queues the first bucket with an empty slot to which the full one at a place leads, and ends there.
fn end_behind<V: Slots>(slots: &V, depth: u32, place: u32, queue: &mut Queue) -> Option<End>
    requires depth { depth ≡ V.depth slots.now }
    requires table { IsTable (V.depth slots.now) (V.others slots.now) }
    requires size { queue.old.buckets ≡ length (V.others slots.now) }
    requires full { let places = queue.old.places in
        AreFull (V.others slots.now) places 0 (length places) }
    requires place { place < length queue.old.places }
    ensures size { queue.new.buckets ≡ queue.old.buckets }
    ensures end { let T = V.others slots.now in
        let from = place_at queue.old.places place in
        MatchOption result (leads_to_full T from.bucket ≡ true)
        (IsBehind T from queue.old.places queue.new.places) }
{
    let others = slots.others(queue.bucket(place));
    let mut slot = 0;
    while slot < depth {
        let other = others[slot as usize];
        if let Some(free) = slots.free(other) {
            let end = End {
                place: queue.len(),
                slot: free,
            };
            queue.add(other, Some(Link { place, slot }));
            return Some(end);
        }
        slot += 1;
    }
    None
}

/// Queues the other buckets of the entries in a full bucket, in slot order.
fn add_others<V: Slots>(slots: &V, depth: u32, place: u32, queue: &mut Queue)
    requires depth { depth ≡ V.depth slots.now }
    requires table { IsTable (V.depth slots.now) (V.others slots.now) }
    requires size { queue.old.buckets ≡ length (V.others slots.now) }
    requires place { place < length queue.old.places }
    requires full { let from = place_at queue.old.places place in
        lowest_empty (V.others slots.now) from.bucket ≡ None }
    ensures size { queue.new.buckets ≡ queue.old.buckets }
    ensures places { let T = V.others slots.now in
        let old = queue.old.places in
        let from = place_at old place in
        queue.new.places ≡ old ++ not_before old (named_in from 0 (slots_of T from.bucket)) }
{
    let bucket = queue.bucket(place);
    queue.add_each(slots.others(bucket), depth, place);
}

/// Writes the steps to an end of the search, and says how many they are.
fn write_steps(queue: &Queue, end: End, steps: &mut [Step]) -> u32
    requires room { length steps.old ≡ queue.now.buckets }
    requires end { end.place < length queue.now.places }
    ensures within { result ≤ length steps.new }
    ensures steps { let place = place_at queue.now.places end.place in
        map spot_of (take result steps.new) ≡ (place.bucket, end.slot) ∷ place.through }
{
    let mut place = end.place;
    let mut slot = end.slot;
    let mut count = 0;
    loop {
        steps[count as usize] = Step {
            bucket: queue.bucket(place),
            slot,
        };
        count += 1;
        match queue.link(place) {
            Some(link) => {
                place = link.place;
                slot = link.slot;
            }
            None => return count,
        }
    }
}
