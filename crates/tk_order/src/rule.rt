//! The rule of an order's table, and what its steps tell.
use atomic_table::{Join, Play, Seat, Split, Table, TableRule};
use std::alloc::Global;
use std::collections::LinkedList;
use std::marker::{Brand, PhantomData};
use tk_frames::Placed;
use tk_shape::Shape;

/// What a seat knows: the list that it has seen, one that it was told of, and for each number that
/// it has the entries under it. No value of it is made.
pub struct View {
    pub seen: LinkedList<Placed>,
    pub told: LinkedList<Placed>,
    pub claims: LinkedList<(u64, LinkedList<Placed>)>,
}

/// Word 0 counts the list, and word 1 the numbers that seats drew.
pub struct Law;

impl TableRule<Placed, View, Shape> for Law {
    ghost use Rattle.tk_order.specs.Rules.{Kept, blank_view};

    ghost holds = { Kept };

    ghost first = { λ _. blank_view };
}

pub type Words = Table<Placed, View, Shape, Law, Global>;

pub type Place = Seat<Placed, View>;

/// Which order it is, and of what shape. Each call of a program picks it.
pub trait Naming {
    ghost use Rattle.atomic_table.specs.Seated.{TableId};
    ghost use Rattle.tk_shape.specs.declared.shape.Shape.{Shape};

    ghost table: { TableId };

    ghost shape: { Shape };
}

impl Naming for Brand {
    ghost use Rattle.tk_order.specs.Smallest.{no_table, no_shape};

    ghost table = { no_table };

    ghost shape = { no_shape };
}

/// A seat sees the whole list.
pub struct Look<B> {
    of: PhantomData<B>,
}

impl<B: Naming> Play<Placed, View> for Look<B> {
    ghost use Rattle.tk_order.specs.Rules.{Looked};

    ghost then = { Looked B.shape };
}

/// A seat sees what it was told of.
pub struct Meet;

impl Play<Placed, View> for Meet {
    ghost use Rattle.tk_order.specs.Rules.{Met};

    ghost then = { Met };
}

/// A seat puts an entry after the list.
pub struct Append<B> {
    of: PhantomData<B>,
}

impl<B: Naming> Play<Placed, View> for Append<B> {
    ghost use Rattle.tk_order.specs.Rules.{Appended};

    ghost then = { Appended B.shape };
}

/// A seat draws a number.
pub struct Number;

impl Play<Placed, View> for Number {
    ghost use Rattle.tk_order.specs.Rules.{Drew};

    ghost then = { Drew };
}

/// A note of what a seat has seen, and a seat that is told of it.
pub struct Note;

impl Split<View> for Note {
    ghost use Rattle.tk_order.specs.Rules.{note_of};

    ghost left = { λ v. v };

    ghost right = { note_of };
}

impl Join<View> for Note {
    ghost use Rattle.tk_order.specs.Rules.{informed, blank_view};

    ghost both = { informed };

    ghost spent = { blank_view };
}

/// A seat that takes another's numbers too.
pub struct Gather;

impl Join<View> for Gather {
    ghost use Rattle.tk_order.specs.Rules.{gathered, blank_view};

    ghost both = { gathered };

    ghost spent = { blank_view };
}
