ghost use Rattle.std.specs.Prelude.{◌≡◌, ◌<◌, ◌∷◌, ◌++◌, List, IsTrue, IfOk, IfErr, None, true, false};
ghost use Rattle.tk_shape.specs.Lengths.{turn_count};
ghost use Rattle.tk_schedule.specs.declared.error.HistoryError.TheVariants.{Line};
ghost use Rattle.tk_schedule.specs.declared.raw.RawKind.TheVariants.{Order, Reads};
ghost use Rattle.tk_schedule.specs.Due.{Due, order_of, epochs_of, is_due, is_order, are_epochs, turn_due, first_bad, bad_line};
ghost use Rattle.tk_schedule.specs.Raw.{ends_once, is_end, kinds};
ghost use Rattle.tk_schedule.specs.Schedule.{phase_of, tick_of, IsTurn};
ghost use Rattle.tk_schedule.specs.Told.{turn_lines, Tells, Names};

use crate::due::{are_epochs, is_order, is_turn_of};
use crate::{HistoryError, Item, Items, RawKind, RawLine, TurnOrder, closes};
use std::alloc::Global;
use tk_shape::{Shape, Words};

/// The turns that lines tell.
pub(crate) fn turns_in(
    alloc: Global,
    shape: &Shape,
    raw: &[RawLine],
) -> Result<Vec<TurnOrder>, HistoryError>
    requires { IsTrue (ends_once raw.now) }
    ensures told { IfOk result (λ turns. Tells shape.now raw.now turns.items) }
    ensures bad { Names (λ turns. None) result (bad_line shape.now raw.now) }
{
    let mut turns = Vec::new(alloc);
    let mut lines = raw;
    'turns: for turn in 0..shape.turns() {
        let (told, behind) = turn_in(alloc, shape, turn, lines)?;
        turns.push(told)?;
        lines = behind;
    }
    let (last, _) = first_of(lines);
    if !is_end(last) {
        return Err(refused(last));
    }
    Ok(turns)
}

/// The turn that lines tell first, and the lines after its own.
fn turn_in<'a>(
    alloc: Global,
    shape: &Shape,
    turn: u32,
    lines: &'a [RawLine],
) -> Result<(TurnOrder, &'a [RawLine]), HistoryError>
    requires turn { turn < turn_count shape.now }
    requires ends { IsTrue (ends_once lines.now) }
    ensures legal { IfOk result (λ x. IsTurn shape.now turn x.0) }
    ensures told { IfOk result (λ x.
        kinds lines.now ≡ turn_lines shape.now turn x.0 ++ kinds x.1.now) }
    ensures ends { IfOk result (λ x. IsTrue (ends_once x.1.now)) }
    ensures bad { (ds : List Due) → Names (λ x. first_bad shape.now ds x.1.now) result
        (first_bad shape.now (turn_due shape.now turn ++ ds) lines.now) }
{
    let (first, behind) = first_of(lines);
    let order = Items::from_slice(alloc, order_in(shape, turn, first)?)?;
    if !closes(shape, turn) {
        let epochs = TurnOrder::newest_before(alloc, shape, turn)?;
        return Ok((TurnOrder { order, epochs }, behind));
    }
    let (second, behind) = first_of(behind);
    let epochs = Words::from_slice(alloc, epochs_in(shape, turn, second)?)?;
    Ok((TurnOrder { order, epochs }, behind))
}

/// The first of lines that have an end, and those after it.
fn first_of(lines: &[RawLine]) -> (&RawLine, &[RawLine])
    requires { IsTrue (ends_once lines.now) }
    ensures { lines.now ≡ result.0.now ∷ result.1.now }
{
    let [first, behind @ ..] = lines else {
        unreachable!()
    };
    (first, behind)
}

/// The items of a line, where it is the order due in a turn.
fn order_in<'a>(shape: &Shape, turn: u32, line: &'a RawLine) -> Result<&'a [Item], HistoryError>
    requires { turn < turn_count shape.now }
    ensures said { IfOk result (λ items.
        line.now.kind ≡ Order (phase_of shape.now turn) (tick_of shape.now turn) items.now) }
    ensures sound { IfOk result (λ items. is_order shape.now turn items.now ≡ true) }
    ensures bad { IfErr result (λ e. e ≡ Line line.now.line) }
    ensures undue { IfErr result (λ e. is_due shape.now (order_of turn) line.now.kind ≡ false) }
{
    if let RawKind::Order { phase, tick, items } = &line.kind {
        let items = items.as_slice();
        if is_turn_of(shape, turn, *phase, *tick) && is_order(shape, turn, items) {
            return Ok(items);
        }
    }
    Err(refused(line))
}

/// The epochs of a line, where it is the one due after the order of a turn.
fn epochs_in<'a>(shape: &Shape, turn: u32, line: &'a RawLine) -> Result<&'a [u32], HistoryError>
    requires { turn < turn_count shape.now }
    ensures said { IfOk result (λ epochs.
        line.now.kind ≡ Reads (phase_of shape.now turn) (tick_of shape.now turn) epochs.now) }
    ensures sound { IfOk result (λ epochs. are_epochs shape.now turn epochs.now ≡ true) }
    ensures bad { IfErr result (λ e. e ≡ Line line.now.line) }
    ensures undue { IfErr result (λ e. is_due shape.now (epochs_of turn) line.now.kind ≡ false) }
{
    if let RawKind::Reads {
        phase,
        tick,
        epochs,
    } = &line.kind
    {
        let epochs = epochs.as_slice();
        if is_turn_of(shape, turn, *phase, *tick) && are_epochs(shape, turn, epochs) {
            return Ok(epochs);
        }
    }
    Err(refused(line))
}

/// That a line isn't the one due.
fn refused(line: &RawLine) -> HistoryError
    ensures { result ≡ Line line.now.line }
{
    HistoryError::Line(line.line)
}

/// Whether a line is the end.
fn is_end(line: &RawLine) -> bool
    ensures { result ≡ is_end line.now.kind }
{
    match &line.kind {
        RawKind::End => true,
        RawKind::Order { .. } | RawKind::Reads { .. } => false,
    }
}
