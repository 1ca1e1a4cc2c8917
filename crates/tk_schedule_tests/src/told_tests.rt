ghost use Rattle.std.specs.Prelude.{◌≡◌, ◌<◌, IfOk, IfSome, IsTrue, not};
ghost use Rattle.tk_shape.specs.Lengths.{turn_count};
ghost use Rattle.tk_schedule.specs.Raw.{is_end};
ghost use Rattle.tk_schedule.specs.Schedule.{IsLegal};

use std::alloc::Global;
use tk_schedule::{History, HistoryError, Item, Items, RawHistory, RawKind, RawLine};
use tk_shape::{Memory, Shape, Words};

const FIRST: Item = Item::Client(0);

const SECOND: Item = Item::Client(1);

const MARK: Item = Item::Publish;

/// A line that isn't the end.
#[derive(Clone, Copy)]
enum Said<'a> {
    Order(u32, u32, &'a [Item]),
    Reads(u32, u32, &'a [u32]),
}

/// Two clients, two phases of two ticks.
fn small_shape() -> Option<Shape>
    ensures clients { IfSome result (λ s. s.clients ≡ 2) }
    ensures turns { IfSome result (λ s. turn_count s ≡ 4) }
{
    Shape::new([2, 8, 1, 1, 24, 64, 1, 4, 2, 2, 2, 1]).ok()
}

fn line_of(alloc: Global, line: u64, said: &Said) -> Result<RawLine, Memory>
    ensures { IfOk result (λ l. IsTrue (not (is_end l.kind))) }
{
    let kind = match *said {
        Said::Order(phase, tick, items) => RawKind::Order {
            phase,
            tick,
            items: Items::from_slice(alloc, items)?,
        },
        Said::Reads(phase, tick, epochs) => RawKind::Reads {
            phase,
            tick,
            epochs: Words::from_slice(alloc, epochs)?,
        },
    };
    Ok(RawLine { line, kind })
}

/// Lines with every second number from 10 on, and the end.
fn lines_of(alloc: Global, said: &[Said]) -> Result<RawHistory, Memory> {
    let mut lines = Vec::new(alloc);
    let mut number: u64 = 10;
    for one in said {
        lines.push(line_of(alloc, number, one)?)?;
        number = number.saturating_add(2);
    }
    lines.push(RawLine {
        line: number,
        kind: RawKind::End,
    })?;
    Ok(RawHistory::from_vec(lines))
}

/// Lines of a history in which each turn has another order, and one line more than it has.
const LINES: [Said; 7] = [
    Said::Order(1, 1, &[SECOND, FIRST]),
    Said::Order(1, 2, &[FIRST, MARK, SECOND]),
    Said::Reads(1, 2, &[0, 1]),
    Said::Order(2, 1, &[FIRST, SECOND]),
    Said::Order(2, 2, &[MARK, SECOND, FIRST]),
    Said::Reads(2, 2, &[2, 1]),
    Said::Order(3, 1, &[FIRST, SECOND]),
];

fn good_history(alloc: Global, shape: &Shape) -> Result<History, HistoryError>
    ensures { IfOk result (λ h. IsLegal shape.now h) }
{
    let raw = lines_of(alloc, &LINES[..6])?;
    History::from_raw(alloc, shape, &raw)
}

/// The epoch that a client reads in a turn of a legal history.
fn epoch_of(shape: &Shape, history: &History, turn: u32, client: u32) -> u32
    requires legal { IsLegal shape.now history.now }
    requires turn { turn < turn_count shape.now }
    requires client { client < shape.now.clients }
{
    history.epoch(turn, client)
}

/// The line that is refused, or 0 where none is.
fn refused(alloc: Global, said: &[Said]) -> Result<u64, Memory> {
    let Some(shape) = small_shape() else {
        return Err(Memory);
    };
    let raw = lines_of(alloc, said)?;
    match History::from_raw(alloc, &shape, &raw) {
        Ok(_) => Ok(0),
        Err(HistoryError::Line(line)) => Ok(line),
        Err(HistoryError::Memory) => Err(Memory),
    }
}

#[test]
fn lines_tell_their_history(rt: HostRuntime) -> Result<(), HistoryError> {
    let Some(shape) = small_shape() else {
        return Err(HistoryError::Memory);
    };
    let history = good_history(rt.alloc(), &shape)?;
    assert!(rt; history.order(1) == [FIRST, MARK, SECOND].as_slice());
    assert!(rt; epoch_of(&shape, &history, 0, 1) == 0);
    assert!(rt; epoch_of(&shape, &history, 1, 1) == 1);
    assert!(rt; epoch_of(&shape, &history, 2, 0) == 1);
    assert!(rt; epoch_of(&shape, &history, 3, 0) == 2);
    Ok(())
}

#[test]
fn lines_of_a_history_counted(rt: HostRuntime) -> Result<(), Memory> {
    let raw = lines_of(rt.alloc(), &LINES[..6])?;
    assert!(rt; raw.as_slice().len() == 7);
    assert!(rt; raw.into_vec().len() == 7);
    Ok(())
}

/// Which line is told otherwise, its number, and what it says then.
const BAD: [(usize, u64, Said); 15] = [
    // a client twice, missing, and out of range
    (0, 10, Said::Order(1, 1, &[FIRST, FIRST])),
    (0, 10, Said::Order(1, 1, &[FIRST])),
    (3, 16, Said::Order(2, 1, &[FIRST, Item::Client(2)])),
    // a mark in a turn that doesn't close, two marks, and none
    (0, 10, Said::Order(1, 1, &[FIRST, MARK, SECOND])),
    (1, 12, Said::Order(1, 2, &[FIRST, MARK, SECOND, MARK])),
    (4, 18, Said::Order(2, 2, &[FIRST, SECOND])),
    // no epochs, one too many, and one too few
    (2, 14, Said::Order(2, 1, &[FIRST, SECOND])),
    (2, 14, Said::Reads(1, 2, &[0, 1, 1])),
    (5, 20, Said::Reads(2, 2, &[2])),
    // an epoch that isn't made yet, and one that is too old
    (2, 14, Said::Reads(1, 2, &[0, 2])),
    (5, 20, Said::Reads(2, 2, &[0, 1])),
    // another phase, and another tick
    (0, 10, Said::Order(2, 1, &[SECOND, FIRST])),
    (4, 18, Said::Order(2, 1, &[MARK, SECOND, FIRST])),
    (2, 14, Said::Reads(2, 2, &[0, 1])),
    (5, 20, Said::Reads(2, 1, &[2, 1])),
];

/// The line that is refused where one of the lines says something else.
fn refused_with(alloc: Global, index: usize, bad: Said) -> Result<u64, Memory> {
    let mut said = LINES;
    if index >= said.len() {
        return Err(Memory);
    }
    said[index] = bad;
    refused(alloc, &said[..6])
}

#[test]
fn first_bad_line_named(rt: HostRuntime) -> Result<(), Memory> {
    for (index, number, bad) in BAD {
        assert!(rt; refused_with(rt.alloc(), index, bad)? == number);
    }
    Ok(())
}

#[test]
fn too_few_lines_and_too_many(rt: HostRuntime) -> Result<(), Memory> {
    for (count, number) in [(0, 10), (2, 14), (5, 20), (6, 0), (7, 22)] {
        let Some(said) = LINES.get(..count) else {
            return Err(Memory);
        };
        assert!(rt; refused(rt.alloc(), said)? == number);
    }
    Ok(())
}
