ghost use Rattle.std.specs.Prelude.{◌≡◌, ◌+◌, ◌-◌, ◌<◌, ◌≤◌, true};
ghost use Rattle.std.specs.Prelude.{[], ◌∷◌, ◌++◌, replicate, find};
ghost use Rattle.std.specs.Prelude.{Some, IfSome, IfNone, IfOk, OnOk, OnErr};
ghost use Rattle.std.specs.List.{range_with_len};
ghost use Rattle.tk_shape.specs.declared.shape.Shape.{Shape};
ghost use Rattle.tk_shape.specs.Lengths.{turn_count};
ghost use Rattle.tk_words.specs.Words.{words_of};
ghost use Rattle.tk_client.specs.declared.got.Got.TheVariants.{Absent, Text};
ghost use Rattle.tk_client.specs.Reader.{next_of, new_follow, wanted, follow_after};
ghost use Rattle.tk_client.specs.Asked.{shown_by};
ghost use Rattle.tk_client.specs.Positions.{IsOriginOrNone};
ghost use Rattle.tk_client.specs.Searching.{follow_anew, is_wanted};
ghost use Rattle.tk_client.specs.Vain.{NoneShown, ShowsNothing};

use crate::got::Got;
use crate::positions::Positions;
use crate::sight::Sight;
use std::alloc::Global;
use std::marker::Model;
use tk_shape::{Bytes, Memory, Shape};
use tk_words::Draws;

/// A log that is followed.
#[derive(Debug, Drop)]
pub(crate) struct Follow {
    /// The log, by number.
    log: u32,
    /// What its numbers gave so far, from 0 on.
    got: Vec<Got>,
    /// How many numbers from the next one on were asked for in vain in this epoch.
    tried: u32,
}

impl Model for Follow {
    ghost use Rattle.tk_client.specs.Reader.{Follow};

    ghost Value = { Follow };

    ghost view = { λ f. record { log = f.log; got = f.got.items; tried = f.tried } };
}

impl Follow {
    /// A log of which nothing is known yet.
    pub(crate) fn new(alloc: Global, log: u32) -> Follow
        ensures { result ≡ new_follow log }
    {
        Follow {
            log,
            got: Vec::new(alloc),
            tried: 0,
        }
    }

    pub(crate) fn log(&self) -> u32
        ensures { result ≡ self.now.log }
    {
        self.log
    }

    /// How many numbers are settled, which is the next number.
    pub(crate) fn next(&self) -> usize
        ensures { result ≡ next_of self.now }
    {
        self.got.len()
    }

    pub(crate) fn got(&self) -> &[Got]
        ensures { result.now ≡ self.now.got }
    {
        self.got.as_slice()
    }

    /// How far ahead of the next number the one is that is wanted. Where the epoch is a new one all
    /// numbers count as not tried yet.
    pub(crate) fn wanted<D: Draws>(
        &self,
        sight: &Sight<D>,
        positions: &mut Positions,
        anew: bool,
    ) -> Option<u32>
        requires log_in { self.now.log < sight.now.shape.now.logs }
        ensures wanted { let shape = sight.now.shape.now in
            let words = words_of shape (D.book sight.now.draws.now) in
            let shown = shown_by sight.now.filter.now words in
            result ≡ wanted shape shown (follow_anew anew self.now) }
        ensures number_in { IfSome result
            (λ j. next_of self.now + j < turn_count sight.now.shape.now) }
        ensures ahead_in { IfSome result (λ j. j ≤ sight.now.shape.now.ahead) }
        ensures vain { let shape = sight.now.shape.now in IfNone result
            (ShowsNothing (turn_count shape) shape.ahead sight.now.filter.now positions.new
            (follow_anew anew self.now)) }
    {
        let next = self.got.len();
        if next >= sight.shape.turns() as usize {
            return None;
        }
        if sight.shape.ahead == 0 {
            return Some(0);
        }
        let tried = self.tried(anew);
        first_shown(positions, sight, self.log, next as u32, tried)
    }

    /// How many numbers from the next one on count as tried.
    fn tried(&self, anew: bool) -> u32
        ensures { result ≡ (follow_anew anew self.now).tried }
    {
        if anew { 0 } else { self.tried }
    }

    /// Settles the numbers up to the one that is so far ahead of the next, which gave a text: those
    /// before it are absent.
    pub(crate) fn settle(&mut self, alloc: Global, ahead: u32, text: Bytes) -> Result<(), Memory>
        ensures settled { OnOk result ((shape : Shape)
            → self.new ≡ follow_after shape ahead (Some text) self.old) }
        ensures err { OnErr result (self.new ≡ self.old) }
    {
        let mut settled = settled(alloc, ahead, text)?;
        self.got.append(&mut settled)?;
        self.tried = 0;
        Ok(())
    }

    /// How many numbers from the next one on count as tried in vain.
    pub(crate) fn set_tried(&mut self, tried: u32)
        ensures { self.new ≡ record self.old { tried = tried } }
    {
        self.tried = tried;
    }
}

/// What is known of so many absent numbers, and of the one after them, which gave a text.
fn settled(alloc: Global, absent: u32, text: Bytes) -> Result<Vec<Got>, Memory>
    ensures { IfOk result (λ got. got.items ≡ replicate absent Absent ++ Text text ∷ []) }
{
    let mut got = Vec::new(alloc);
    for _ in 0..absent {
        got.push(Got::Absent)?;
    }
    got.push(Got::Text(text))?;
    Ok(got)
}

/// How far ahead of the next number of a log the first one is that isn't tried yet and that is
/// shown.
fn first_shown<D: Draws>(
    positions: &mut Positions,
    sight: &Sight<D>,
    log: u32,
    next: u32,
    tried: u32,
) -> Option<u32>
    requires log_in { log < sight.now.shape.now.logs }
    requires next_in { next < turn_count sight.now.shape.now }
    ensures first { let shape = sight.now.shape.now in
        let words = words_of shape (D.book sight.now.draws.now) in
        let shown = shown_by sight.now.filter.now words in
        result ≡ find (λ j. is_wanted shape shown log (next + j))
        (range_with_len tried (shape.ahead - tried)) }
    ensures number_in { IfSome result (λ j. next + j < turn_count sight.now.shape.now) }
    ensures ahead_in { IfSome result (λ j. j < sight.now.shape.now.ahead) }
    ensures vain { let shape = sight.now.shape.now in IfNone result
        (NoneShown (turn_count shape) shape.ahead sight.now.filter.now positions.new next tried) }
{
    positions.turn_to(sight.shape, sight.draws, log);
    for ahead in tried..sight.shape.ahead {
        if is_shown(positions, sight, log, next + ahead) {
            return Some(ahead);
        }
    }
    None
}

/// Whether there is such a number, and it is shown.
fn is_shown<D: Draws>(positions: &mut Positions, sight: &Sight<D>, log: u32, number: u32) -> bool
    requires log_in { log < sight.now.shape.now.logs }
    requires ready { IsOriginOrNone sight.now.shape.now
        (D.book sight.now.draws.now) log positions.old }
    ensures shown { let shape = sight.now.shape.now in
        let words = words_of shape (D.book sight.now.draws.now) in
        let shown = shown_by sight.now.filter.now words in
        result ≡ is_wanted shape shown log number }
    ensures number_in { result ≡ true → number < turn_count sight.now.shape.now }
    ensures same { positions.new ≡ positions.old }
{
    if number >= sight.shape.turns() {
        return false;
    }
    let hits = positions.of(sight.shape, sight.draws, log, number);
    sight.filter.shows(&hits[..sight.shape.hits as usize])
}
