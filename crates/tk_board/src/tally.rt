//! The word that counts a board's list, and the steps on it.
ghost use Rattle.std.specs.Prelude.{◌≡◌, ◌+◌, ◌<◌, ◌≤◌, ◌^◌, [], length};
ghost use Rattle.std.specs.Prelude.{Some, IfOk, true, false};
ghost use mathlib.Core.Option.{none, some};
ghost use mathlib.Core.List.{IsPrefix};
ghost use Rattle.atomic_table.specs.Table.{step};
ghost use Rattle.tk_board.specs.Rules.{noted, claimed, whole, drafting, informed};
ghost use Rattle.tk_board.specs.Rules.{Proposed, Met};
ghost use Rattle.tk_board.specs.Boards.{GrowsTo};

use crate::memory::Memory;
use crate::rule::{Check, Draft, Extend, Meet, Note, Place, Propose, Stake, Words};
use crate::share::Share;
use atomic_table::Table;
use std::alloc::Global;
use std::marker::Model;

/// The table of a board. Seen as which table it is.
#[derive(Drop)]
pub struct Tally<T: Share> {
    words: Words<T>,
}

impl<T: Share> Model for Tally<T> {
    ghost use Rattle.std.specs.Prelude.{◌<◌};
    ghost use Rattle.atomic_table.specs.Seated.{TableId};

    ghost Value = { TableId };

    ghost view = { λ t. t.words.shared.table_id };

    ghost invariant = { λ t. 0 < t.words.shared.table_id.words };
}

impl<T: Share> Tally<T> {
    /// A board's table, and the seat of a publisher that has shown nothing.
    pub fn new(alloc: Global) -> Result<(Tally<T>, Place<T>), Memory>
        ensures { IfOk result (λ t. (t.1.table_id ≡ t.0) × (t.1.me ≡ (whole [], []))) }
    {
        let (words, place): (Words<T>, Place<T>) = Table::vacant(alloc, &[0], 0, &())?;
        Ok((Tally { words }, place))
    }

    /// The publisher plans to add the value that is said.
    pub fn propose(&self, place: &mut Place<T>, count: u64, said: &Option<T>)
        requires table { place.old.table_id ≡ self.now }
        requires whole { (place.old.me ≡ (whole place.old.me.0.seen, []))
            × (length place.old.me.0.seen ≡ count) }
        requires said { (y : _) × (said.now ≡ Some y) }
        ensures { (place.new.table_id ≡ self.now)
            × Proposed T.meaning (step 0 0 count count (some said.now)) place.old.me count
            place.new.me }
    {
        self.words
            .shared
            .compare_exchange_with::<Propose<T>>(place, 0, count, count, said);
    }

    /// A claim of the planned list.
    pub fn draft(&self, place: &mut Place<T>) -> Place<T>
        requires table { place.old.table_id ≡ self.now }
        requires plan { (place.old.me
            ≡ (drafting place.old.me.0.seen place.old.me.0.plan false, []))
            × (length place.old.me.0.seen < length place.old.me.0.plan) }
        ensures own { (place.new.table_id ≡ self.now)
            × (place.new.me ≡ (drafting place.old.me.0.seen place.old.me.0.plan true, [])) }
        ensures claim { (result.table_id ≡ self.now)
            × (result.me ≡ (claimed place.old.me.0.plan, [])) }
    {
        self.words.shared.split_seat::<Draft>(place)
    }

    /// The plan is given up, with the claim of it.
    pub fn withdraw(&self, place: &mut Place<T>, claim: Place<T>)
        requires table { (place.old.table_id ≡ self.now) × (claim.table_id ≡ self.now) }
        requires plan { (place.old.me
            ≡ (drafting place.old.me.0.seen place.old.me.0.plan true, []))
            × (length place.old.me.0.seen < length place.old.me.0.plan) }
        requires claim { claim.me ≡ (claimed place.old.me.0.plan, []) }
        ensures { (place.new.table_id ≡ self.now)
            × (place.new.me ≡ (whole place.old.me.0.seen, [])) }
    {
        self.words.shared.join_seat::<Draft>(place, claim)
    }

    /// The planned list is the shown one.
    pub fn extend(&self, place: &mut Place<T>, count: u64)
        requires table { place.old.table_id ≡ self.now }
        requires plan { (place.old.me
            ≡ (drafting place.old.me.0.seen place.old.me.0.plan true, []))
            × IsPrefix place.old.me.0.seen place.old.me.0.plan }
        requires count { (length place.old.me.0.seen ≡ count)
            × (length place.old.me.0.plan ≡ count + 1) × (count + 1 < 2 ^ 64) }
        ensures { (place.new.table_id ≡ self.now)
            × (place.new.me ≡ (whole place.old.me.0.plan, [])) }
    {
        self.words
            .shared
            .compare_exchange::<Extend>(place, 0, count, count + 1);
    }

    /// A claim of the list that was seen.
    pub fn stake(&self, place: &mut Place<T>) -> Place<T>
        requires { (place.old.table_id ≡ self.now) × (place.old.me.0.sure ≡ true) }
        ensures own { (place.new.table_id ≡ self.now) × (place.new.me ≡ place.old.me) }
        ensures claim { (result.table_id ≡ self.now)
            × (result.me ≡ (claimed place.old.me.0.seen, [])) }
    {
        self.words.shared.split_seat::<Stake>(place)
    }

    /// A note of the list that was seen.
    pub fn note(&self, place: &mut Place<T>) -> Place<T>
        requires { (place.old.table_id ≡ self.now) × (place.old.me.0.sure ≡ true) }
        ensures own { (place.new.table_id ≡ self.now) × (place.new.me ≡ place.old.me) }
        ensures note { (result.table_id ≡ self.now)
            × (result.me ≡ (noted place.old.me.0.seen, [])) }
    {
        self.words.shared.split_seat::<Note>(place)
    }

    /// A claim that the count bears out is a note. The answer is the count.
    pub fn check(&self, claim: &mut Place<T>) -> u64
        requires { (claim.old.table_id ≡ self.now)
            × (claim.old.me ≡ (claimed claim.old.me.0.seen, [])) }
        ensures table { claim.new.table_id ≡ self.now }
        ensures sure { length claim.old.me.0.seen ≤ result
            → claim.new.me ≡ (noted claim.old.me.0.seen, []) }
    {
        self.words.shared.load::<Check>(claim, 0)
    }

    // Takes in a note.
    fn hear(&self, place: &mut Place<T>, other: Place<T>)
        requires table { (place.old.table_id ≡ self.now) × (other.table_id ≡ self.now) }
        requires notes { (place.old.me.1 ≡ []) × (other.me ≡ (noted other.me.0.seen, [])) }
        ensures { (place.new.table_id ≡ self.now)
            × (place.new.me ≡ (informed place.old.me.0 other.me.0, [])) }
    {
        self.words.shared.join_seat::<Note>(place, other)
    }

    // What was told is compared with what was seen.
    fn meet(&self, place: &mut Place<T>)
        requires { (place.old.table_id ≡ self.now) × (place.old.me.0.sure ≡ true) }
        ensures { (place.new.table_id ≡ self.now)
            × Met (step 0 0 0 0 none) place.old.me 0 place.new.me }
    {
        self.words.shared.load::<Meet>(place, 0);
    }

    /// The longer of two lists is seen.
    pub fn learn(&self, place: &mut Place<T>, other: Place<T>)
        requires table { (place.old.table_id ≡ self.now) × (other.table_id ≡ self.now) }
        requires notes { (place.old.me ≡ (noted place.old.me.0.seen, []))
            × (other.me ≡ (noted other.me.0.seen, [])) }
        ensures note { (place.new.table_id ≡ self.now)
            × (place.new.me ≡ (noted place.new.me.0.seen, [])) }
        ensures longer { GrowsTo place.old.me.0.seen other.me.0.seen place.new.me.0.seen }
    {
        self.hear(place, other);
        self.meet(place);
    }

    /// The publisher's list begins with what another seat has seen.
    pub fn gather(&self, place: &mut Place<T>, other: Place<T>)
        requires table { (place.old.table_id ≡ self.now) × (other.table_id ≡ self.now) }
        requires notes { (place.old.me ≡ (whole place.old.me.0.seen, []))
            × (other.me ≡ (noted other.me.0.seen, [])) }
        ensures same { (place.new.table_id ≡ self.now) × (place.new.me ≡ place.old.me) }
        ensures begins { IsPrefix other.me.0.seen place.old.me.0.seen }
    {
        self.hear(place, other);
        self.meet(place)
    }
}
