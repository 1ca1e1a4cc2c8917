//! What the publisher knows: its seat of the table.
ghost use Rattle.std.specs.Prelude.{◌≡◌, ◌+◌, ◌<◌, ◌^◌, [], ◌∷◌, ◌++◌, length, All, true, false};
ghost use Rattle.std.specs.Prelude.{Some, drop, IfOk, OnErr, MatchResult};
ghost use mathlib.Core.List.{IsPrefix};
ghost use Rattle.std.specs.Arc.{arc_value};
ghost use Rattle.tk_board.specs.Rules.{Ends, claimed, noted};
ghost use Rattle.left_right.specs.Sides.{view};
ghost use Rattle.tk_board.specs.Boards.{AllBegin, AllFit, Tied, book};

use crate::door::{Stage, door};
use crate::memory::Memory;
use crate::reader::Reader;
use crate::rule::Place;
use crate::share::Share;
use crate::shown::Shown;
use crate::tally::Tally;
use std::alloc::Global;
use std::marker::Model;
use std::sync::Arc;

/// Seen as the board, the shown list, the next one if it is planned, and whether a claim of that
/// is out.
#[derive(Drop)]
pub struct Ledger<T: Share> {
    tally: Arc<Tally<T>>,
    place: Place<T>,
    count: u64,
    readers: u32,
}

impl<T: Share> Model for Ledger<T> {
    ghost use Rattle.std.specs.Arc.{arc_value};
    ghost use Rattle.tk_board.specs.Boards.{Book, IsLedger, AllFit, book};

    ghost Value = { Book T.Meaning };

    ghost view = { λ l.
        book l.place.table_id l.place.me.0.seen l.place.me.0.plan l.place.me.0.out };

    ghost invariant = { λ l. IsLedger (arc_value l.tally) l.place l.count
        × AllFit T.fits l.place.me.0.seen × AllFit T.fits l.place.me.0.plan };
}

impl<T: Share> Ledger<T> {
    /// The ledger of a board that has shown nothing.
    pub fn new(alloc: Global, readers: u32) -> Result<Ledger<T>, Memory>
        ensures { IfOk result (λ l. l ≡ book l.board [] [] false) }
    {
        let (tally, place) = Tally::new(alloc)?;
        Ok(Ledger {
            tally: Arc::new(alloc, tally)?,
            place,
            count: 0,
            readers,
        })
    }

    // Plans to add a value.
    fn plan(&mut self, value: T) -> T
        requires clear { self.old ≡ book self.old.board self.old.list [] false }
        requires fits { T.fits (length self.old.list) (T.meaning value) }
        ensures same { result ≡ value }
        ensures plan { self.new
            ≡ book self.old.board self.old.list (self.old.list ++ T.meaning value ∷ []) false }
    {
        let said = Some(value);
        self.tally.propose(&mut self.place, self.count, &said);
        said.unwrap()
    }

    // A claim of the list with the value after it, and the value with places for claims, where
    // there is memory.
    fn draft(&mut self, alloc: Global, value: T) -> (Result<Arc<Shown<T>>, Memory>, Place<T>)
        requires clear { self.old ≡ book self.old.board self.old.list [] false }
        requires fits { T.fits (length self.old.list) (T.meaning value) }
        requires room { length self.old.list + 1 < 2 ^ 64 }
        ensures plan { self.new
            ≡ book self.old.board self.old.list (self.old.list ++ T.meaning value ∷ []) true }
        ensures claim { (result.1.table_id ≡ self.old.board)
            × (result.1.me ≡ (claimed (self.old.list ++ T.meaning value ∷ []), [])) }
        ensures shown { IfOk result.0 (λ s. ((arc_value s).board ≡ self.old.board)
            × ((arc_value s).list ≡ self.old.list ++ T.meaning value ∷ [])) }
    {
        let value = self.plan(value);
        let claim = self.tally.draft(&mut self.place);
        (
            shelved(alloc, self.count + 1, value, &claim, self.readers),
            claim,
        )
    }

    // The plan is given up, with the claim of it.
    fn withdraw(&mut self, claim: Place<T>)
        requires out { self.old ≡ book self.old.board self.old.list self.old.plan true }
        requires longer { length self.old.list < length self.old.plan }
        requires claim { (claim.table_id ≡ self.old.board)
            × (claim.me ≡ (claimed self.old.plan, [])) }
        ensures { self.new ≡ book self.old.board self.old.list [] false }
    {
        self.tally.withdraw(&mut self.place, claim)
    }

    // The planned list is the shown one.
    fn extend(&mut self)
        requires out { self.old ≡ book self.old.board self.old.list self.old.plan true }
        requires more { IsPrefix self.old.list self.old.plan }
        requires one { length self.old.plan ≡ length self.old.list + 1 }
        requires room { length self.old.list + 1 < 2 ^ 64 }
        ensures { self.new ≡ book self.old.board self.old.plan [] false }
    {
        self.tally.extend(&mut self.place, self.count);
        self.count += 1;
    }

    // Lays a claim down for each reader.
    fn lay(&mut self, shown: &Shown<T>)
        requires { (shown.now.board ≡ self.old.board) × (shown.now.list ≡ self.old.list) }
        ensures { self.new ≡ self.old }
    {
        lay_all(&self.tally, &mut self.place, shown, self.readers)
    }

    /// The value is the first of the list.
    pub fn begin(&mut self, alloc: Global, first: T) -> Result<Arc<Shown<T>>, Memory>
        requires clear { self.old ≡ book self.old.board [] [] false }
        requires fits { T.fits 0 (T.meaning first) }
        ensures { IfOk result (λ s. (self.new ≡ book self.old.board (T.meaning first ∷ []) [] false)
            × ((arc_value s).board ≡ self.old.board)
            × ((arc_value s).list ≡ T.meaning first ∷ [])) }
    {
        let (made, _claim) = self.draft(alloc, first);
        let shown = made?;
        self.extend();
        Ok(shown)
    }

    /// The value is the next one of the list, and is appended to what the pair shows.
    pub fn enlist(
        &mut self,
        alloc: Global,
        value: T,
        stage: &mut Stage<T>,
    ) -> Result<Arc<Shown<T>>, Memory>
        requires clear { self.old ≡ book self.old.board self.old.list [] false }
        requires fits { T.fits (length self.old.list) (T.meaning value) }
        requires pending { drop stage.old.behind stage.old.log.items ≡ [] }
        ensures desk { stage.new.desk ≡ stage.old.desk }
        ensures list { IfOk result (λ s.
            (self.new ≡ book self.old.board (self.old.list ++ T.meaning value ∷ []) [] false)
            × ((arc_value s).board ≡ self.old.board)
            × ((arc_value s).list ≡ self.old.list ++ T.meaning value ∷ [])) }
        ensures pending { IfOk result (λ s. (o : _)
            × (drop stage.new.behind stage.new.log.items ≡ o ∷ []) × (arc_value o ≡ arc_value s)) }
        ensures err { OnErr result
            ((self.new ≡ self.old) × (drop stage.new.behind stage.new.log.items ≡ [])) }
    {
        if self.count.checked_add(1).is_none() {
            return Err(Memory);
        }
        let (made, claim) = self.draft(alloc, value);
        let shown = match made {
            Ok(shown) => shown,
            Err(refusal) => {
                self.withdraw(claim);
                return Err(refusal);
            }
        };
        if appended(stage, &shown).is_err() {
            self.withdraw(claim);
            return Err(Memory);
        }
        self.extend();
        self.lay(&shown);
        Ok(shown)
    }

    /// A note of the shown list.
    pub fn note(&mut self) -> Place<T>
        ensures same { self.new ≡ self.old }
        ensures note { (result.table_id ≡ self.old.board)
            × (result.me ≡ (noted self.old.list, [])) }
    {
        self.tally.note(&mut self.place)
    }

    /// A reader that knows the shown list.
    pub fn reader(
        &mut self,
        shown: &Arc<Shown<T>>,
        stage: &mut Stage<T>,
        index: usize,
    ) -> Result<Reader<T>, Memory>
        requires shown { ((arc_value shown.now).board ≡ self.old.board)
            × ((arc_value shown.now).list ≡ self.old.list) }
        requires tied { Tied self.old.board (view stage.old.desk.place) }
        ensures same { self.new ≡ self.old }
        ensures stage { (stage.new.desk.shown ≡ stage.old.desk.shown)
            × (stage.new.log ≡ stage.old.log) × (stage.new.behind ≡ stage.old.behind)
            × (view stage.new.desk.place ≡ view stage.old.desk.place) }
        ensures reader { IfOk result (λ r. (r.board ≡ self.old.board) × (r.list ≡ self.old.list)) }
    {
        let tally = Arc::try_clone(&self.tally)?;
        let held = Arc::try_clone(shown)?;
        let door = door(stage)?;
        let place = self.note();
        Ok(Reader {
            tally,
            place,
            index,
            held,
            door: Some(door),
        })
    }

    // The shown list begins with what the reader knew.
    fn gather(&mut self, reader: Reader<T>)
        requires clear { self.old ≡ book self.old.board self.old.list [] false }
        requires board { reader.board ≡ self.old.board }
        ensures same { self.new ≡ self.old }
        ensures begins { IsPrefix reader.list self.old.list }
    {
        self.tally.gather(&mut self.place, reader.into_place())
    }

    /// The shown list begins with what each of these readers knew.
    pub fn gather_all(&mut self, readers: Vec<Reader<T>>)
        requires clear { self.old ≡ book self.old.board self.old.list [] false }
        requires board { All (λ k. k.board ≡ self.old.board) readers.items }
        ensures same { self.new ≡ self.old }
        ensures begin { AllBegin readers.items self.old.list }
    {
        for reader in readers {
            self.gather(reader);
        }
    }

    /// Each value of the list may stand where it stands.
    pub fn fits(&self)
        ensures { AllFit T.fits self.now.list }
    {
        let _ = &self.count;
    }
}

// The value with places for claims, for more than one owner.
fn shelved<T: Share>(
    alloc: Global,
    number: u64,
    value: T,
    like: &Place<T>,
    readers: u32,
) -> Result<Arc<Shown<T>>, Memory>
    requires like { like.now.me ≡ (claimed like.now.me.0.seen, []) }
    requires ends { Ends like.now.me.0.seen number (T.meaning value) }
    requires fits { AllFit T.fits like.now.me.0.seen }
    ensures { IfOk result (λ s. ((arc_value s).board ≡ like.now.table_id)
        × ((arc_value s).list ≡ like.now.me.0.seen)) }
{
    let shown = Shown::new(alloc, number, value, like, readers)?;
    Ok(Arc::new(alloc, shown)?)
}

fn lay_all<T: Share>(tally: &Tally<T>, place: &mut Place<T>, shown: &Shown<T>, readers: u32)
    requires table { (place.old.table_id ≡ tally.now) × (place.old.me.0.sure ≡ true) }
    requires shown { (shown.now.board ≡ tally.now) × (shown.now.list ≡ place.old.me.0.seen) }
    ensures { (place.new.table_id ≡ tally.now) × (place.new.me ≡ place.old.me) }
{
    for reader in 0..readers {
        shown.lay(reader as usize, tally.stake(place));
    }
}

// Appends a copy of the value to what is to be published.
fn appended<T: Share>(stage: &mut Stage<T>, shown: &Arc<Shown<T>>) -> Result<(), Memory>
    requires { drop stage.old.behind stage.old.log.items ≡ [] }
    ensures desk { stage.new.desk ≡ stage.old.desk }
    ensures pending { MatchResult result
        (λ _. (o : _) × (drop stage.new.behind stage.new.log.items ≡ o ∷ [])
        × (arc_value o ≡ arc_value shown.now))
        (λ _. drop stage.new.behind stage.new.log.items ≡ []) }
{
    let copy = Arc::try_clone(shown)?;
    match stage.append(copy) {
        Ok(()) => Ok(()),
        Err(_given_back) => Err(Memory),
    }
}
