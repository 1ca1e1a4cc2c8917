ghost use Rattle.std.specs.Prelude.{◌≡◌, ◌<◌, [], length, IfOk, OnErr, OnOk, MatchBool};
ghost use mathlib.Core.List.{IsPrefix};
ghost use Rattle.std.specs.Arc.{arc_value};
ghost use Rattle.tk_board.specs.Rules.{claimed, noted};
ghost use Rattle.tk_board.specs.Boards.{AllFit, IsLast, GoesOn, Learns};

use crate::door::{Door, enter};
use crate::memory::Memory;
use crate::rule::Place;
use crate::share::Share;
use crate::shown::Shown;
use crate::tally::Tally;
use crate::told::Told;
use std::marker::Model;
use std::sync::Arc;

/// A reader of a board. Seen as its board and the list that it knows: that up to the newest value
/// that it has seen or was told of.
#[derive(Drop)]
pub struct Reader<T: Share> {
    pub(crate) tally: Arc<Tally<T>>,
    pub(crate) place: Place<T>,
    pub(crate) index: usize,
    /// The newest value that it knows.
    pub(crate) held: Arc<Shown<T>>,
    /// `None` only while it is inside.
    pub(crate) door: Option<Door<T>>,
}

impl<T: Share> Model for Reader<T> {
    ghost use Rattle.std.specs.Arc.{arc_value};
    ghost use Rattle.std.specs.Prelude.{MatchOption};
    ghost use Rattle.tk_board.specs.Boards.{Known, IsReader, Tied};

    ghost Value = { Known T.Meaning };

    ghost view = { λ r. record { board = r.place.table_id; list = r.place.me.0.seen } };

    ghost invariant = { λ r. IsReader (arc_value r.tally) r.place (arc_value r.held)
        × MatchOption r.door (Unit {0}) (λ d. Tied (arc_value r.tally) d.place.me.0.client) };
}

// Takes in the list of a claim, if the count bears it out.
fn taken_in<T: Share>(tally: &Tally<T>, place: &mut Place<T>, claim: Place<T>, number: u64) -> bool
    requires table { (place.old.table_id ≡ tally.now) × (claim.table_id ≡ tally.now) }
    requires note { place.old.me ≡ (noted place.old.me.0.seen, []) }
    requires claim { (claim.me ≡ (claimed claim.me.0.seen, []))
        × (length claim.me.0.seen ≡ number) × (length place.old.me.0.seen < number) }
    ensures table { place.new.table_id ≡ tally.now }
    ensures taken { MatchBool result
        ((place.new.me ≡ (noted claim.me.0.seen, []))
        × IsPrefix place.old.me.0.seen claim.me.0.seen)
        (place.new.me ≡ place.old.me) }
{
    let mut claim = claim;
    if tally.check(&mut claim) < number {
        return false;
    }
    tally.learn(place, claim);
    true
}

impl<T: Share> Reader<T> {
    /// The last value of the list that it knows now, which goes on from the list that it knew. It
    /// waits for nobody.
    #[tactic(auto, using(tk_lists::proofs::Offers::prefix_self))]
    pub fn look(&mut self) -> Result<T, Memory>
        ensures known { GoesOn self.old self.new }
        ensures last { IfOk result (λ x. IsLast self.new.list (T.meaning x)) }
    {
        let than = self.held.number();
        let Some(door) = self.door.take() else {
            return self.held.value().share();
        };
        let (door, got) = enter(&self.tally, door, than);
        self.door = Some(door);
        let Some(further) = got? else {
            return self.held.value().share();
        };
        let Some(claim) = further.claim(self.index) else {
            return self.held.value().share();
        };
        if !taken_in(&self.tally, &mut self.place, claim, further.number()) {
            return self.held.value().share();
        }
        self.held = further;
        self.held.value().share()
    }

    /// Takes in what the publisher told. It waits for nobody.
    #[tactic(auto, using(crate::proofs::Knowing::kept_list))]
    pub fn learn(&mut self, told: &mut Told<T>) -> Result<(), Memory>
        requires { told.old.board ≡ self.old.board }
        ensures told { told.new ≡ told.old }
        ensures err { OnErr result (self.new ≡ self.old) }
        ensures ok { OnOk result (Learns self.old told.old self.new) }
    {
        let newest = Arc::try_clone(&told.shown)?;
        let seen = self.tally.note(&mut told.place);
        self.tally.learn(&mut self.place, seen);
        if newest.number() > self.held.number() {
            self.held = newest;
        }
        Ok(())
    }

    /// Each value that it knows may stand where it stands.
    pub fn fits(&self)
        ensures { AllFit T.fits self.now.list }
    {
        self.held.fits()
    }

    pub(crate) fn into_place(self) -> Place<T>
        ensures { (result.table_id ≡ self.board) × (result.me ≡ (noted self.list, [])) }
    {
        let Reader {
            tally: _tally,
            place,
            index: _,
            held: _held,
            door: _door,
        } = self;
        place
    }
}
