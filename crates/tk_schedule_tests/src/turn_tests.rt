ghost use Rattle.std.specs.Prelude.{◌≡◌, IfOk};
ghost use Rattle.tk_shape.specs.Lengths.{turn_count};

use tk_schedule::{History, Item, Items, closes, place, turn};
use tk_shape::{Memory, Shape};

/// Two clients, two phases of three ticks.
fn shape() -> Result<Shape, Memory>
    ensures clients { IfOk result (λ s. s.clients ≡ 2) }
    ensures phases { IfOk result (λ s. s.phases ≡ 2) }
    ensures ticks { IfOk result (λ s. s.ticks ≡ 3) }
    ensures turns { IfOk result (λ s. turn_count s ≡ 6) }
{
    match Shape::new([2, 8, 1, 1, 24, 64, 1, 4, 2, 2, 3, 1]) {
        Ok(shape) => Ok(shape),
        Err(_) => Err(Memory),
    }
}

#[test]
fn turns_of_two_phases(rt: HostRuntime) -> Result<(), Memory> {
    let shape = shape()?;
    assert!(rt; shape.turns() == 6);
    assert!(rt; place(&shape, 0) == (1, 1) && place(&shape, 5) == (2, 3));
    assert!(rt; turn(&shape, 2, 1) == 3);
    assert!(rt; closes(&shape, 2) && !closes(&shape, 3));
    Ok(())
}

/// The order of a turn that closes its phase, and before its end that of one that doesn't.
const CLOSING: [Item; 3] = [Item::Client(0), Item::Client(1), Item::Publish];

#[test]
fn serial_history_of_two_phases(rt: HostRuntime) -> Result<(), Memory> {
    let shape = shape()?;
    let history = History::serial(rt.alloc(), &shape)?;
    assert!(rt; history.order(1) == &CLOSING[..2]);
    assert!(rt; history.order(5) == CLOSING.as_slice());
    assert!(rt; history.epoch(2, 1) == 0 && history.epoch(3, 0) == 1);
    Ok(())
}

#[test]
fn items_of_a_turn(rt: HostRuntime) -> Result<(), Memory> {
    let items = Items::from_slice(rt.alloc(), &CLOSING)?;
    assert!(rt; items.as_slice() == CLOSING.as_slice());
    let items = Items::from_vec(items.into_vec());
    assert!(rt; items.as_slice() == CLOSING.as_slice());
    Ok(())
}
