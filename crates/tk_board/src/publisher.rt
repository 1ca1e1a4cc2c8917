ghost use Rattle.std.specs.Prelude.{◌≡◌, ◌≤◌, [], ◌∷◌, ◌++◌, length, vec_len, drop, All};
ghost use Rattle.std.specs.Prelude.{Some, IfOk, OnErr, OnOk, false};
ghost use Rattle.std.specs.Arc.{arc_value};
ghost use Rattle.left_right.specs.Sides.{view};
ghost use Rattle.tk_board.specs.Boards.{AllBegin, AllFit, Tied, book};

use crate::door::{Newest, Stage, published, raise};
use crate::ledger::Ledger;
use crate::memory::Memory;
use crate::reader::Reader;
use crate::share::Share;
use crate::shown::Shown;
use crate::told::Told;
use left_right::Absorb;
use std::alloc::Global;
use std::marker::Model;
use std::mem;
use std::sync::{Arc, Wait};

/// The publisher of a board. Seen as its board and the list that it has shown. It isn't `Drop`: end
/// it by `close`.
pub struct Publisher<T: Share>
where
    Newest<T>: Absorb<Arc<Shown<T>>, State = Shown<T>>,
{
    ledger: Ledger<T>,
    /// `None` only while a value is published.
    stage: Option<Stage<T>>,
}

impl<T: Share> Model for Publisher<T>
where
    Newest<T>: Absorb<Arc<Shown<T>>, State = Shown<T>>,
{
    ghost use Rattle.std.specs.Arc.{arc_value};
    ghost use Rattle.std.specs.Prelude.{◌≡◌, [], false, drop, MatchOption};
    ghost use Rattle.tk_board.specs.Boards.{Known, IsStage, book};

    ghost Value = { Known T.Meaning };

    ghost view = { λ p. record { board = p.ledger.board; list = p.ledger.list } };

    ghost invariant = { λ p. (p.ledger ≡ book p.ledger.board p.ledger.list [] false)
        × MatchOption p.stage (Unit {0}) (λ s. IsStage p.ledger.board p.ledger.list
        (arc_value s.desk.shown.value.shown) (drop s.behind s.log.items)) };
}

// Puts the pair back into its place.
fn put_back<T: Share, R: Wait>(rt: &R, home: &mut Option<Stage<T>>, stage: Stage<T>)
    ensures { home.new ≡ Some stage }
{
    match mem::replace(home, Some(stage)) {
        None => {}
        Some(other) => drop(other.take(rt)),
    }
}

impl<T: Share> Publisher<T> {
    /// The value is the next one of the list. Where memory runs out it is given up and never shown.
    pub fn show<R: Wait + AllocGlobal>(&mut self, rt: &R, value: T) -> Result<Told<T>, Memory>
        requires { T.fits (length self.old.list) (T.meaning value) }
        ensures err { OnErr result (self.new ≡ self.old) }
        ensures ok { IfOk result (λ t. (self.new.board ≡ self.old.board)
            × (self.new.list ≡ self.old.list ++ T.meaning value ∷ []) × (t ≡ self.new)) }
    {
        let Some(mut stage) = self.stage.take() else {
            return Err(Memory);
        };
        let shown = match self.ledger.enlist(rt.alloc(), value, &mut stage) {
            Ok(shown) => shown,
            Err(refusal) => {
                put_back(rt, &mut self.stage, stage);
                return Err(refusal);
            }
        };
        put_back(rt, &mut self.stage, published(rt, stage));
        let place = self.ledger.note();
        Ok(Told { place, shown })
    }

    /// Each value of the list may stand where it stands.
    pub fn fits(&self)
        ensures { AllFit T.fits self.now.list }
    {
        self.ledger.fits()
    }

    /// Ends the board. The list begins with what each of these readers knew.
    pub fn close<R: Wait>(self, rt: &R, readers: Vec<Reader<T>>) -> Result<(), Memory>
        requires { All (λ k. k.board ≡ self.board) readers.items }
        ensures { OnOk result (AllBegin readers.items self.list) }
    {
        let Publisher { mut ledger, stage } = self;
        ledger.gather_all(readers);
        if let Some(stage) = stage {
            drop(stage.take(rt));
        }
        Ok(())
    }
}

// A reader for each place of the ledger, by number.
fn readers_of<T: Share>(
    alloc: Global,
    ledger: &mut Ledger<T>,
    shown: &Arc<Shown<T>>,
    stage: &mut Stage<T>,
    count: u32,
) -> Result<Vec<Reader<T>>, Memory>
    requires shown { ((arc_value shown.now).board ≡ ledger.old.board)
        × ((arc_value shown.now).list ≡ ledger.old.list) }
    requires tied { Tied ledger.old.board (view stage.old.desk.place) }
    ensures same { ledger.new ≡ ledger.old }
    ensures stage { (stage.new.desk.shown ≡ stage.old.desk.shown)
        × (stage.new.log ≡ stage.old.log) × (stage.new.behind ≡ stage.old.behind) }
    ensures readers { IfOk result (λ v. (vec_len v ≡ count)
        × All (λ k. (k.board ≡ ledger.old.board) × (k.list ≡ ledger.old.list)) v.items) }
{
    let mut all = Vec::with_capacity(alloc, count as usize)?;
    for index in 0..count {
        all.push(ledger.reader(shown, stage, index as usize)?)?;
    }
    Ok(all)
}

/// A board that has shown one value, and so many readers, which know it.
pub fn open<T: Share, R: Wait + AllocGlobal>(
    rt: &R,
    first: T,
    readers: u32,
) -> Result<(Publisher<T>, Vec<Reader<T>>), Memory>
    requires readers { 1 ≤ readers }
    requires fits { T.fits 0 (T.meaning first) }
    ensures { IfOk result (λ r. (r.0.list ≡ T.meaning first ∷ []) × (vec_len r.1 ≡ readers)
        × All (λ k. k ≡ r.0) r.1.items) }
{
    let alloc = rt.alloc();
    let mut ledger = Ledger::new(alloc, readers)?;
    let shown = ledger.begin(alloc, first)?;
    let mut stage = raise(rt, alloc, &shown, readers)?;
    match readers_of(alloc, &mut ledger, &shown, &mut stage, readers) {
        Ok(all) => {
            let stage = Some(stage);
            Ok((Publisher { ledger, stage }, all))
        }
        Err(refusal) => {
            drop(stage.take(rt));
            Err(refusal)
        }
    }
}
