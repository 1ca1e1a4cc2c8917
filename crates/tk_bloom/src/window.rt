ghost use Rattle.std.specs.Prelude.{◌≡◌, ℕ, ◌*◌, ◌%◌, ◌<◌, ◌≤◌, List, ◌++◌, [], ◌∷◌, length};
ghost use Rattle.std.specs.Prelude.{slice_index_or, IfOk, All, IsTrue};
ghost use Rattle.tk_bloom.specs.Filters.{marks_of, positions_of, is_shown, all_marked};
ghost use Rattle.tk_bloom.specs.Windows.{window, pushes_in, IsSized};

use crate::tally::Tally;
use crate::{Filter, Memory};
use std::alloc::Global;
use std::marker::Model;

/// The latest pushes, each of a few positions of a filter. Seen as the bits of that filter, the
/// positions of a push, how many pushes are kept at most, and those that are, the oldest first.
#[derive(Debug, Drop)]
pub struct Window {
    hits: u32,
    retained: u32,
    tally: Tally,
}

impl Model for Window {
    ghost use Rattle.tk_bloom.specs.Windows.{Kept, pushes_in, HoldsPushes};

    ghost Value = { Kept };

    ghost view = { λ w. record {
      bits = w.tally.bits;
      hits = w.hits;
      retained = w.retained;
      pushes = pushes_in w.hits w.tally.positions;
    } };

    ghost invariant = { λ w. HoldsPushes w.hits w.retained w.tally };
}

impl Window {
    /// A window with no push, which keeps the last `retained` ones. It takes all its memory here.
    pub fn open(alloc: Global, bits: u32, hits: u32, retained: u32) -> Result<Window, Memory>
        requires some_bits { 1 ≤ bits }
        requires most_bits { bits ≤ 65536 }
        requires some_hits { 1 ≤ hits }
        requires most_hits { hits ≤ 4 }
        requires some_retained { 1 ≤ retained }
        requires most_retained { retained ≤ 131072 }
        ensures { IfOk result (λ w.
            w ≡ record { bits = bits; hits = hits; retained = retained; pushes = [] }) }
    {
        Ok(Window {
            hits,
            retained,
            tally: Tally::open(alloc, bits, hits * retained)?,
        })
    }

    /// A window that has taken these pushes, the oldest first, whose positions lie in one row. It
    /// takes all its memory here.
    pub fn restore(
        alloc: Global,
        bits: u32,
        hits: u32,
        retained: u32,
        pushed: &[u32],
    ) -> Result<Window, Memory>
        requires some_bits { 1 ≤ bits }
        requires most_bits { bits ≤ 65536 }
        requires some_hits { 1 ≤ hits }
        requires most_hits { hits ≤ 4 }
        requires some_retained { 1 ≤ retained }
        requires most_retained { retained ≤ 131072 }
        requires whole { length pushed.now % hits ≡ 0 }
        requires few { length pushed.now ≤ hits * retained }
        requires in_range { All (λ h. h < bits) pushed.now }
        ensures { IfOk result (λ w. w ≡ record {
          bits = bits;
          hits = hits;
          retained = retained;
          pushes = pushes_in hits pushed.now;
        }) }
    {
        let mut tally = Tally::open(alloc, bits, hits * retained)?;
        tally.append(pushed);
        Ok(Window {
            hits,
            retained,
            tally,
        })
    }

    /// Has no effect, and says what sizes the window has, whatever was taken.
    pub fn sized(&self)
        ensures { IsSized self.now }
    {
        let _ = &self.tally;
    }

    /// How many pushes are kept.
    pub fn pushes(&self) -> u32
        ensures { result ≡ length self.now.pushes }
    {
        self.tally.len() as u32 / self.hits
    }

    /// The positions of the push number `i` that is kept, from 0, the oldest first. Nothing is
    /// copied.
    pub fn hits_at(&self, i: u32) -> &[u32]
        requires { i < length self.now.pushes }
        ensures { (d : List ℕ) → result.now ≡ slice_index_or self.now.pushes i d }
    {
        let hits = self.hits as usize;
        self.tally.part(i as usize * hits, hits)
    }

    /// Takes the positions of one more write. Where the window is full, the oldest push leaves it.
    pub fn push(&mut self, hits: &[u32])
        requires whole { length hits.now ≡ self.old.hits }
        requires in_range { All (λ h. h < self.old.bits) hits.now }
        ensures { let all = self.old.pushes ++ hits.now ∷ [] in
            self.new ≡ record self.old { pushes = window self.old.retained all } }
    {
        let others = (self.retained - 1) * self.hits;
        self.tally.keep_last(others as usize);
        self.tally.append(hits);
    }

    /// A filter of the positions of all pushes of the window, as it is now.
    pub fn filter(&self, alloc: Global) -> Result<Filter, Memory>
        ensures marks { let positions = positions_of self.now.pushes in
            IfOk result (λ f. f ≡ marks_of self.now.bits positions) }
        ensures shown { let positions = positions_of self.now.pushes in
            IfOk result (λ f. (hits : List ℕ) → all_marked f hits ≡ is_shown positions hits) }
        ensures pushes_shown { let pushes = self.now.pushes in
            IfOk result (λ f. All (λ hits. IsTrue (all_marked f hits)) pushes) }
    {
        let marks = self.tally.occurring(alloc)?;
        Ok(Filter::of_marks(alloc, marks)?)
    }
}
