//! The words that count an order's entries and its seats, under the order's name, and their steps.
ghost use Rattle.std.specs.Prelude.{◌≡◌, ◌+◌, ◌<◌, ◌^◌, []};
ghost use mathlib.Core.Option.{none, some};
ghost use Rattle.atomic_table.specs.Table.{step};
ghost use Rattle.tk_order.specs.Rules.{note_of, informed, gathered, MayAppend};
ghost use Rattle.tk_order.specs.Rules.{Looked, Met, Appended, Drew};

use crate::rule::{Append, Gather, Look, Meet, Naming, Note, Number, Place, Words};
use std::marker::PhantomData;
use tk_frames::Placed;

#[derive(Drop)]
pub struct Counts<B: Naming> {
    pub words: Words,
    pub of: PhantomData<B>,
    pub ghost is: { words.shared.table_id ≡ B.table },
    pub ghost key: { words.shared.key ≡ B.shape },
    pub ghost two: { words.shared.table_id.words ≡ 2 },
}

impl<B: Naming> Counts<B> {
    /// The place has seen the whole list, whose length is the answer.
    pub fn look(&self, place: &mut Place) -> u64
        requires { place.old.table_id ≡ B.table }
        ensures { (place.new.table_id ≡ B.table)
            × Looked B.shape (step B.table.slots 0 0 0 none) place.old.me result place.new.me }
    {
        self.words.shared.load::<Look<B>>(place, 0)
    }

    /// The place has seen what it was told of.
    pub fn meet(&self, place: &mut Place)
        requires { place.old.table_id ≡ B.table }
        ensures { (place.new.table_id ≡ B.table)
            × Met (step B.table.slots 0 0 0 none) place.old.me 0 place.new.me }
    {
        self.words.shared.load::<Meet>(place, 0);
    }

    /// A place without numbers that has seen as much.
    pub fn note(&self, place: &mut Place) -> Place
        requires { place.old.table_id ≡ B.table }
        ensures { (place.new.table_id ≡ B.table) × (place.new.me ≡ place.old.me)
            × (result.table_id ≡ B.table) × (result.me ≡ (note_of place.old.me.0, [])) }
    {
        self.words.shared.split_seat::<Note>(place)
    }

    /// The place is told what another has seen.
    pub fn learn(&self, place: &mut Place, other: Place)
        requires { (place.old.table_id ≡ B.table) × (other.table_id ≡ B.table)
            × (other.me.1 ≡ []) }
        ensures { (place.new.table_id ≡ B.table)
            × (place.new.me ≡ (informed place.old.me.0 other.me.0, place.old.me.1)) }
    {
        self.words.shared.join_seat::<Note>(place, other)
    }

    /// And takes its numbers.
    pub fn gather(&self, place: &mut Place, other: Place)
        requires { (place.old.table_id ≡ B.table) × (other.table_id ≡ B.table)
            × (other.me.1 ≡ []) }
        ensures { (place.new.table_id ≡ B.table)
            × (place.new.me ≡ (gathered place.old.me.0 other.me.0, place.old.me.1)) }
    {
        self.words.shared.join_seat::<Gather>(place, other)
    }

    /// The place gets the number that is due, if it is this one. The answer is the number due.
    pub fn draw(&self, place: &mut Place, due: u64) -> u64
        requires own { place.old.table_id ≡ B.table }
        requires free { place.old.me.0.claims ≡ [] }
        requires room { due + 1 < 2 ^ 64 }
        ensures { (place.new.table_id ≡ B.table)
            × Drew (step B.table.slots 1 due (due + 1) none) place.old.me result place.new.me }
    {
        self.words
            .shared
            .compare_exchange::<Number>(place, 1, due, due + 1)
    }

    /// Puts an entry after the list, if the list is this long. The answer is its length before.
    pub fn append(&self, place: &mut Place, old: u64, entry: &Placed) -> u64
        requires own { place.old.table_id ≡ B.table }
        requires may { MayAppend B.shape place.old.me.0 entry.now }
        requires at { entry.now.position ≡ old + 1 }
        requires room { old + 1 < 2 ^ 64 }
        ensures { (place.new.table_id ≡ B.table)
            × Appended B.shape (step B.table.slots 0 old (old + 1) (some entry.now))
            place.old.me result place.new.me }
    {
        self.words
            .shared
            .compare_exchange_with::<Append<B>>(place, 0, old, old + 1, entry)
    }
}
