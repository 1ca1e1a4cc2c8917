//! The value that is shown, by left_right: no reader waits for the publisher.
ghost use Rattle.std.specs.Prelude.{◌≡◌, ◌<◌, [], ◌∷◌, length, drop, IfOk, IfSome};
ghost use Rattle.std.specs.Arc.{arc_value};
ghost use Rattle.left_right.specs.Sides.{view};
ghost use Rattle.tk_board.specs.Boards.{Before, Tied};

use crate::memory::Memory;
use crate::share::Share;
use crate::shown::Shown;
use crate::tally::Tally;
use atomic_table::{Join, Split};
use crossbeam_utils::rule::{Outcome, Protocol};
use left_right::Absorb;
use left_right::reader::Reader as LeftRightReader;
use left_right::writer::Writer as LeftRightWriter;
use std::alloc::{AllocError, Global};
use std::collections::LinkedList;
use std::sync::{Arc, Wait};

/// One copy of what readers take.
#[derive(Drop)]
pub struct Newest<T: Share> {
    pub shown: Arc<Shown<T>>,
}

impl<T: Share> Absorb<Arc<Shown<T>>> for Newest<T> {
    type State = Shown<T>;

    ghost use Rattle.std.specs.Arc.{arc_value};

    ghost state = { λ s. arc_value s.shown };

    ghost applied = { λ _ o. arc_value o };

    fn absorb_first(
        &mut self,
        operation: &Arc<Shown<T>>,
        _other: &Newest<T>,
    ) -> Result<(), AllocError> {
        self.shown = Arc::try_clone(operation)?;
        Ok(())
    }
}

/// What is shown goes on from all that was seen, on the same board.
pub struct Grows;

impl<T: Share> Protocol<Newest<T>, LinkedList<Shown<T>>> for Grows {
    ghost use Rattle.std.specs.Arc.{arc_value};
    ghost use Rattle.tk_board.specs.Boards.{Leads, none_seen};

    ghost holds = { λ x. Leads (arc_value x.shown) };

    ghost first = { none_seen };
}

/// A reader enters, or the publisher publishes.
pub struct Sees;

impl<T: Share> Outcome<Newest<T>, LinkedList<Shown<T>>> for Sees {
    ghost use Rattle.std.specs.Arc.{arc_value};
    ghost use Rattle.tk_board.specs.Boards.{Saw};

    ghost then = { λ v _ y w. Saw v (arc_value y.shown) w };
}

/// What the publisher has seen, for a new reader.
pub struct Hand;

impl<K> Split<LinkedList<K>> for Hand {
    ghost left = { λ v. v };

    ghost right = { λ v. v };
}

impl<K> Join<LinkedList<K>> for Hand {
    ghost use Rattle.tk_board.specs.Boards.{none_seen};

    ghost both = { λ _ w. w };

    ghost spent = { none_seen };
}

pub type Door<T> = LeftRightReader<Newest<T>, LinkedList<Shown<T>>, Grows>;

pub type Stage<T> = LeftRightWriter<Newest<T>, Arc<Shown<T>>, LinkedList<Shown<T>>, Grows>;

// The value, where it is further on.
fn further<T: Share>(shown: &Arc<Shown<T>>, than: u64) -> Result<Option<Arc<Shown<T>>>, Memory>
    ensures { IfOk result (λ o. IfSome o
        (λ s. (arc_value s ≡ arc_value shown.now) × (than < length (arc_value s).list))) }
{
    if shown.number() <= than {
        return Ok(None);
    }
    Ok(Some(Arc::try_clone(shown)?))
}

/// What is shown now, where it is further on. It waits for nobody.
pub fn enter<T: Share>(
    tally: &Tally<T>,
    door: Door<T>,
    than: u64,
) -> (Door<T>, Result<Option<Arc<Shown<T>>>, Memory>)
    requires { Tied tally.now (view door.place) }
    ensures door { Tied tally.now (view result.0.place) }
    ensures shown { IfOk result.1 (λ o. IfSome o
        (λ s. ((arc_value s).board ≡ tally.now) × (than < length (arc_value s).list))) }
{
    let _ = tally;
    match door.enter_as::<Sees>() {
        Ok(reading) => {
            let got = further(&reading.get().shown, than);
            (reading.leave(), got)
        }
        Err(door) => (door, Ok(None)),
    }
}

/// Shows the value that was appended. It waits for readers of the one before.
pub fn published<T: Share, R: Wait>(rt: &R, stage: Stage<T>) -> Stage<T>
    requires { (o : _) × (drop stage.behind stage.log.items ≡ o ∷ [])
        × Before (arc_value o) (arc_value stage.desk.shown.value.shown) }
    ensures pending { drop result.behind result.log.items ≡ [] }
    ensures shown { (o : _) → drop stage.behind stage.log.items ≡ o ∷ []
        → arc_value result.desk.shown.value.shown ≡ arc_value o }
{
    let mut current = stage;
    for _ in rt.forever() {
        let (next, done) = current.publish_as::<Sees, R>(rt);
        if done.is_ok() {
            return next;
        }
        current = next;
    }
    unreachable!()
}

/// A pair that shows one value, whose publisher has seen it.
pub fn raise<T: Share, R: Wait>(
    rt: &R,
    alloc: Global,
    first: &Arc<Shown<T>>,
    readers: u32,
) -> Result<Stage<T>, Memory>
    requires { 0 < readers }
    ensures { IfOk result (λ s. (drop s.behind s.log.items ≡ [])
        × (arc_value s.desk.shown.value.shown ≡ arc_value first.now)
        × (view s.desk.place ≡ arc_value first.now ∷ [])) }
{
    let one = Newest {
        shown: Arc::try_clone(first)?,
    };
    let two = Newest {
        shown: Arc::try_clone(first)?,
    };
    let stage: Stage<T> = Stage::new(alloc, one, two, readers as usize)?;
    let (stage, done) = stage.publish_as::<Sees, R>(rt);
    match done {
        Ok(()) => Ok(stage),
        Err(_refusal) => {
            drop(stage.take(rt));
            Err(Memory)
        }
    }
}

/// A reader that has seen what the publisher has.
pub fn door<T: Share>(stage: &mut Stage<T>) -> Result<Door<T>, Memory>
    ensures same { (stage.new.desk.shown ≡ stage.old.desk.shown)
        × (stage.new.log ≡ stage.old.log) × (stage.new.behind ≡ stage.old.behind)
        × (view stage.new.desk.place ≡ view stage.old.desk.place) }
    ensures seen { IfOk result (λ d. view d.place ≡ view stage.old.desk.place) }
{
    let mut door = stage.factory().reader()?;
    door.learn::<Hand>(stage.tell::<Hand>());
    Ok(door)
}
