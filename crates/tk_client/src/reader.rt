ghost use Rattle.std.specs.Prelude.{◌≡◌, ◌==◌, ◌<◌, ◌≤◌, length, find, IfOk, IfSome, OnOk, OnErr};
ghost use Rattle.std.specs.Prelude.{Some, None, true};
ghost use Rattle.std.specs.Option.{option_copied};
ghost use Rattle.tk_words.specs.Words.{words_of};
ghost use Rattle.tk_client.specs.Reader.{new_reader, at_epoch, target, after_read};
ghost use Rattle.tk_client.specs.Asked.{shown_by};
ghost use Rattle.tk_client.specs.Reader.{got_in};
ghost use Rattle.tk_client.specs.Searching.{AreBelow, IsTargetOrNone};

use crate::follow::Follow;
use crate::got::Got;
use crate::positions::Positions;
use crate::record::{record_answer, renew};
use crate::search::{come_from, first_from};
use crate::sight::Sight;
use crate::target::Target;
use crate::vain_search::VainSearch;
use std::alloc::Global;
use std::marker::Model;
use tk_shape::{Bytes, Memory, Shape};
use tk_words::Draws;

/// The logs that a client follows, and what they gave so far.
#[derive(Debug, Drop)]
pub(crate) struct Reader {
    /// The logs, ascending.
    follows: Vec<Follow>,
    /// The filter positions of those numbers of each log that were looked at.
    positions: Vec<Positions>,
    /// The place among them where the next search begins.
    cursor: usize,
    /// The epoch that was read last.
    last: u32,
    /// The last search, where it found nothing and nothing was read since.
    vain: Option<VainSearch>,
}

impl Model for Reader {
    ghost use Rattle.tk_client.specs.Reader.{Reader};
    ghost use Rattle.tk_client.specs.Vain.{IsReader};

    ghost Value = { Reader };

    ghost view = { λ r. record { follows = r.follows.items; cursor = r.cursor; last = r.last } };

    ghost invariant = { λ r.
        IsReader r.follows.items r.positions.items r.cursor r.last r.vain };
}

impl Reader {
    /// A reader of these logs that knows nothing yet.
    pub(crate) fn new(alloc: Global, logs: &[u32]) -> Result<Reader, Memory>
        ensures { IfOk result (λ r. r ≡ new_reader logs.now) }
    {
        let mut follows = Vec::new(alloc);
        for log in logs {
            follows.push(Follow::new(alloc, *log))?;
        }
        Ok(Reader {
            positions: no_positions(alloc, logs.len())?,
            follows,
            cursor: 0,
            last: 0,
            vain: None,
        })
    }

    /// What a read over an epoch is for, where this filter shows what is worth reading: the first
    /// log from the cursor on, cyclically, of which a number is wanted; none for a read that is for
    /// nothing.
    pub(crate) fn target<D: Draws>(&mut self, sight: &Sight<D>, epoch: u32) -> Option<Target>
        requires follows_in { AreBelow sight.now.shape.now.logs self.old.follows }
        ensures target { let shape = sight.now.shape.now in
            let words = words_of shape (D.book sight.now.draws.now) in
            let shown = shown_by sight.now.filter.now words in
            result ≡ target shape shown (at_epoch epoch self.old) }
        ensures in_range { IsTargetOrNone sight.now.shape.now (length self.old.follows) result }
        ensures same { self.new ≡ self.old }
    {
        if self.is_vain(sight, epoch) {
            return None;
        }
        let anew = epoch != self.last;
        let found = first_from(
            sight,
            self.follows.as_slice(),
            self.positions.as_mut_slice(),
            anew,
            self.cursor,
        );
        self.vain = VainSearch::after(sight, epoch, self.follows.len(), found);
        found
    }

    /// Whether a search over an epoch is known to find nothing.
    fn is_vain<D: Draws>(&self, sight: &Sight<D>, epoch: u32) -> bool
        requires follows_in { AreBelow sight.now.shape.now.logs self.now.follows }
        ensures { let shape = sight.now.shape.now in
            let words = words_of shape (D.book sight.now.draws.now) in
            let shown = shown_by sight.now.filter.now words in
            result ≡ true → target shape shown (at_epoch epoch self.now) ≡ None }
    {
        match &self.vain {
            Some(vain) => {
                vain.is_over(sight, epoch)
                    && come_from(sight, self.follows.as_slice(), self.positions.as_slice())
            }
            None => false,
        }
    }

    /// Takes the answer to a read over an epoch.
    pub(crate) fn take(
        &mut self,
        alloc: Global,
        shape: &Shape,
        epoch: u32,
        target: Option<Target>,
        answer: Option<Bytes>,
    ) -> Result<(), Memory>
        requires place_in { IfSome target (λ t. t.place < length self.old.follows) }
        requires ahead_in { IfSome target (λ t. t.ahead ≤ 8) }
        ensures taken { OnOk result (self.new
            ≡ after_read shape.now (at_epoch epoch self.old) target answer) }
        ensures err { OnErr result (self.new ≡ self.old) }
    {
        let anew = epoch != self.last;
        let Some(target) = target else {
            renew(self.follows.as_mut_slice(), anew);
            self.last = epoch;
            keep_of_epoch(&mut self.vain, epoch);
            return Ok(());
        };
        let behind = (target.place + 1) % self.follows.len();
        record_answer(
            alloc,
            shape,
            self.follows.as_mut_slice(),
            anew,
            target,
            answer,
        )?;
        self.cursor = behind;
        self.last = epoch;
        self.vain = None;
        Ok(())
    }

    /// What a log gave, one for each number below the next; nothing for a log that isn't followed.
    pub(crate) fn got(&self, log: u32) -> &[Got]
        ensures { result.now ≡ got_in self.now.follows log }
    {
        match of_log(self.follows.as_slice(), log) {
            Some(follow) => follow.got(),
            None => &[],
        }
    }
}

/// Of so many logs, none of whose numbers was looked at yet.
fn no_positions(alloc: Global, count: usize) -> Result<Vec<Positions>, Memory>
    ensures { IfOk result (λ positions. length positions.items ≡ count) }
{
    let mut positions = Vec::with_capacity(alloc, count)?;
    for _ in 0..count {
        positions.push(Positions::new())?;
    }
    Ok(positions)
}

/// Forgets a search over another epoch than this one.
fn keep_of_epoch(vain: &mut Option<VainSearch>, epoch: u32)
    ensures { IfSome vain.new (λ v. (v.epoch ≡ epoch) × (vain.old ≡ Some v)) }
{
    let is_other = match vain {
        Some(search) => search.epoch != epoch,
        None => false,
    };
    if is_other {
        *vain = None;
    }
}

/// The one of these that follows a log.
fn of_log(follows: &[Follow], log: u32) -> Option<&Follow>
    ensures { option_copied result ≡ find (λ f. f.log == log) follows.now }
{
    follows.iter().find(|follow| follow.log() == log)
}
