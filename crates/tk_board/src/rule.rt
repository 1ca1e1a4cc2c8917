//! The rule of a board's table, and what its steps tell.
use crate::share::Share;
use atomic_table::{Join, Perch, Play, Seat, Split, Table, TableRule};
use std::alloc::Global;
use std::collections::LinkedList;
use std::marker::PhantomData;

/// What a seat knows. No value of it is made.
pub struct View<M> {
    /// A list that was shown so far, or where the seat isn't sure, may come to be.
    pub seen: LinkedList<M>,
    /// One that it was told of.
    pub told: LinkedList<M>,
    /// The publisher's next list, if it has one.
    pub plan: LinkedList<M>,
    /// It is the publisher's.
    pub shows: bool,
    /// The publisher has a claim of the next list out.
    pub out: bool,
    pub sure: bool,
}

/// Word 0 counts the shown list.
pub struct Law;

impl<T: Share> TableRule<Option<T>, View<T::Meaning>, ()> for Law {
    ghost use Rattle.tk_board.specs.Rules.{Kept, first_view};

    ghost holds = { λ _. Kept };

    ghost first = { λ _. first_view };
}

pub type Words<T> = Table<Option<T>, View<<T as Share>::Meaning>, (), Law, Global>;

pub type Place<T> = Seat<Option<T>, View<<T as Share>::Meaning>>;

/// Where a claim of a list rests.
pub type Claim<T> = Perch<Option<T>, View<<T as Share>::Meaning>>;

/// The publisher plans to add a value.
pub struct Propose<T> {
    of: PhantomData<T>,
}

impl<T: Share> Play<Option<T>, View<T::Meaning>> for Propose<T> {
    ghost use Rattle.tk_board.specs.Rules.{Proposed};

    ghost then = { Proposed T.meaning };
}

/// The planned list is the shown one.
pub struct Extend;

impl<T, M> Play<Option<T>, View<M>> for Extend {
    ghost use Rattle.tk_board.specs.Rules.{Extended};

    ghost then = { Extended };
}

/// A claim is compared with the count.
pub struct Check;

impl<T, M> Play<Option<T>, View<M>> for Check {
    ghost use Rattle.tk_board.specs.Rules.{Checked};

    ghost then = { Checked };
}

/// What was told is compared with what was seen.
pub struct Meet;

impl<T, M> Play<Option<T>, View<M>> for Meet {
    ghost use Rattle.tk_board.specs.Rules.{Met};

    ghost then = { Met };
}

/// A claim of the planned list.
pub struct Draft;

impl<M> Split<View<M>> for Draft {
    ghost use Rattle.tk_board.specs.Rules.{sent_out, claimed};

    ghost left = { sent_out };

    ghost right = { λ v. claimed v.plan };
}

impl<M> Join<View<M>> for Draft {
    ghost use Rattle.tk_board.specs.Rules.{given_up, blank};

    ghost both = { λ v _. given_up v };

    ghost spent = { blank };
}

/// A claim of the list that a seat has seen.
pub struct Stake;

impl<M> Split<View<M>> for Stake {
    ghost use Rattle.tk_board.specs.Rules.{claimed};

    ghost left = { λ v. v };

    ghost right = { λ v. claimed v.seen };
}

/// A note of the list that a seat has seen.
pub struct Note;

impl<M> Split<View<M>> for Note {
    ghost use Rattle.tk_board.specs.Rules.{noted};

    ghost left = { λ v. v };

    ghost right = { λ v. noted v.seen };
}

impl<M> Join<View<M>> for Note {
    ghost use Rattle.tk_board.specs.Rules.{informed, blank};

    ghost both = { informed };

    ghost spent = { blank };
}
