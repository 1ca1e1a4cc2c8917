ghost use Rattle.std.specs.Prelude.{◌≡◌, ◌<◌, ◌≤◌};
ghost use Rattle.tk_shape.specs.Lengths.{turn_count};
ghost use Rattle.tk_schedule.specs.Schedule.{phase_of, tick_of, turn_at, is_closing};

use tk_shape::Shape;

/// A turn's phase and tick, both from 1. Turns count from 0.
pub fn place(shape: &Shape, turn: u32) -> (u32, u32)
    requires { turn < turn_count shape.now }
    ensures phase { result.0 ≡ phase_of shape.now turn }
    ensures tick { result.1 ≡ tick_of shape.now turn }
{
    (turn / shape.ticks + 1, turn % shape.ticks + 1)
}

/// The turn of a phase and a tick.
pub fn turn(shape: &Shape, phase: u32, tick: u32) -> u32
    requires phase_low { 1 ≤ phase }
    requires phase_high { phase ≤ shape.now.phases }
    requires tick_low { 1 ≤ tick }
    requires tick_high { tick ≤ shape.now.ticks }
    ensures turn { result ≡ turn_at shape.now phase tick }
    ensures in_run { result < turn_count shape.now }
{
    (phase - 1) * shape.ticks + (tick - 1)
}

/// Whether a turn is the last of its phase.
pub fn closes(shape: &Shape, turn: u32) -> bool
    requires { turn < turn_count shape.now }
    ensures { result ≡ is_closing shape.now turn }
{
    (turn + 1) % shape.ticks == 0
}
