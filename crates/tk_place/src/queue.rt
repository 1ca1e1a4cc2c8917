ghost use Rattle.std.specs.Prelude.{◌≡◌, ◌^◌, ◌<◌, ◌≤◌, ◌++◌, ◌∷◌, [], length, map, take, All, Some, IfOk, IfSome};
ghost use Rattle.tk_place.specs.Place.{not_before, named_in};
ghost use Rattle.tk_place.specs.Queue.{IsStamped};
ghost use Rattle.tk_place.specs.Views.{place_at, through_of, reached_by, places_from};

use crate::Memory;
use std::alloc::Global;
use std::marker::Model;

/// How a bucket was reached: from the bucket of an earlier place in the queue, through the entry in this slot of it.
#[derive(Clone, Copy, Drop)]
pub struct Link {
    pub place: u32,
    pub slot: u32,
}

/// A place in the queue: a bucket, and how it was reached. The new entry's own buckets have no link.
#[derive(Clone, Copy, Drop)]
pub struct Queued {
    pub bucket: u32,
    pub link: Option<Link>,
}

/// The buckets in the order in which they were reached, each once. A bucket has the stamp of the
/// last search that reached it, so that the next one has nothing to clear. There is room for one
/// more than there are buckets, since each that is met is written after the last, be it new or not.
#[derive(Drop)]
pub struct Queue {
    places: Vec<Queued>,
    len: u32,
    stamps: Vec<u32>,
    stamp: u32,
}

impl Model for Queue {
    ghost use Rattle.tk_place.specs.Views.{Line};

    ghost Value = { Line };

    ghost use Rattle.tk_place.specs.Queue.{line_of, IsQueue};

    ghost view = { line_of };

    ghost invariant = { IsQueue };
}

/// Writes a bucket after those that are queued, and queues it if it is new. It asks that by no branch, since none
/// could be foretold.
fn take_place(places: &mut [Queued], stamps: &mut [u32], len: u32, stamp: u32, place: Queued) -> u32
    requires stamped { IsStamped places.old len stamps.old stamp (length stamps.old) }
    requires bucket { place.bucket < length stamps.old }
    requires link { IfSome place.link (λ link. link.place < len) }
    ensures stamped { IsStamped places.new result stamps.new stamp (length stamps.old) }
    ensures places { let old = places_from [] (take len places.old) in
        let reached = reached_by old place.bucket place.link in
        places_from [] (take result places.new) ≡ old ++ not_before old (reached ∷ []) }
{
    let is_new = stamps[place.bucket as usize] != stamp;
    stamps[place.bucket as usize] = stamp;
    places[len as usize] = place;
    len + u32::from(is_new)
}

/// The buckets that the entries in the bucket at a place name, the entry in each slot one.
#[derive(Clone, Copy)]
struct Named<'a> {
    place: u32,
    depth: u32,
    others: &'a [u32],
}

/// Queues each of the buckets named that is new.
fn take_each(places: &mut [Queued], stamps: &mut [u32], len: u32, stamp: u32, named: Named) -> u32
    requires stamped { IsStamped places.old len stamps.old stamp (length stamps.old) }
    requires depth { named.depth ≡ length named.others.now }
    requires others { All (λ b. b < length stamps.old) named.others.now }
    requires place { named.place < len }
    ensures stamped { IsStamped places.new result stamps.new stamp (length stamps.old) }
    ensures places { let old = places_from [] (take len places.old) in
        let all = named_in (place_at old named.entry.place) 0 (map (λ b. Some b) named.entry.others.now) in
        places_from [] (take result places.new) ≡ old ++ not_before old all }
{
    let Named {
        place,
        depth,
        others,
    } = named;
    let mut taken = len;
    for slot in 0..depth {
        let bucket = others[slot as usize];
        let link = Some(Link { place, slot });
        taken = take_place(places, stamps, taken, stamp, Queued { bucket, link });
    }
    taken
}

impl Queue {
    /// An empty queue with room for each of so many buckets.
    pub fn new(alloc: Global, buckets: u32) -> Result<Queue, Memory>
        ensures buckets { IfOk result (λ q. q.buckets ≡ buckets) }
        ensures places { IfOk result (λ q. q.places ≡ []) }
    {
        let nowhere = Queued {
            bucket: 0,
            link: None,
        };
        Ok(Queue {
            places: vec![in alloc; nowhere; buckets as usize + 1]?,
            len: 0,
            stamps: vec![in alloc; 0u32; buckets as usize]?,
            stamp: 1,
        })
    }

    /// Takes all buckets out of the queue.
    pub fn clear(&mut self)
        ensures buckets { self.new.buckets ≡ self.old.buckets }
        ensures places { self.new.places ≡ [] }
    {
        self.len = 0;
        if self.stamp == u32::MAX {
            self.stamps.fill(0);
            self.stamp = 1;
            return;
        }
        self.stamp += 1;
    }

    /// How many buckets were queued.
    pub fn len(&self) -> u32
        ensures len { result ≡ length self.now.places }
        ensures most { result ≤ self.now.buckets }
    {
        self.len
    }

    /// The bucket at a place.
    pub fn bucket(&self, place: u32) -> u32
        requires { place < length self.now.places }
        ensures bucket { result ≡ (place_at self.now.places place).bucket }
        ensures within { result < self.now.buckets }
        ensures few { length self.now.places ≤ self.now.buckets }
        ensures small { self.now.buckets < 2 ^ 32 }
    {
        self.places[place as usize].bucket
    }

    /// How the bucket at a place was reached.
    pub fn link(&self, place: u32) -> Option<Link>
        requires { place < length self.now.places }
        ensures through { let at = place_at self.now.places place in
            at.through ≡ through_of self.now.places result }
        ensures earlier { IfSome result (λ link. link.place < place) }
    {
        self.places[place as usize].link
    }

    /// Queues a bucket that was never in the queue. Any other stays where it is.
    pub fn add(&mut self, bucket: u32, link: Option<Link>)
        requires bucket { bucket < self.old.buckets }
        requires link { IfSome link (λ link. link.place < length self.old.places) }
        ensures buckets { self.new.buckets ≡ self.old.buckets }
        ensures places { let old = self.old.places in
            let place = reached_by old bucket link in
            self.new.places ≡ old ++ not_before old (place ∷ []) }
    {
        let place = Queued { bucket, link };
        self.len = take_place(
            &mut self.places,
            &mut self.stamps,
            self.len,
            self.stamp,
            place,
        );
    }

    /// Queues each of so many buckets that was never in the queue: those that the entries in a place's bucket name.
    pub fn add_each(&mut self, others: &[u32], depth: u32, place: u32)
        requires depth { depth ≡ length others.now }
        requires others { All (λ b. b < self.old.buckets) others.now }
        requires place { place < length self.old.places }
        ensures buckets { self.new.buckets ≡ self.old.buckets }
        ensures places { let old = self.old.places in
            let named = named_in (place_at old place) 0 (map (λ b. Some b) others.now) in
            self.new.places ≡ old ++ not_before old named }
    {
        let named = Named {
            place,
            depth,
            others,
        };
        self.len = take_each(
            &mut self.places,
            &mut self.stamps,
            self.len,
            self.stamp,
            named,
        );
    }
}
