ghost use Rattle.std.specs.Prelude.{◌≡◌, ◌≤◌, ◌++◌, OnOk, IfOk};
ghost use Rattle.tk_make.specs.Making.{made_say, is_said, said_in_tick, said_in_phase, made_says};

use crate::note::make_note;
use std::alloc::Global;
use tk_script::{Say, Says};
use tk_shape::Memory;

/// All that is said.
pub(crate) fn make_says(alloc: Global, number: u64) -> Result<Says, Memory>
    ensures { IfOk result (λ says. says ≡ made_says number) }
{
    let mut says = Vec::new(alloc);
    for phase in 1..9 {
        push_phase(alloc, number, phase, &mut says)?;
    }
    Ok(Says::from_vec(says))
}

/// Appends what is said in a phase.
fn push_phase(alloc: Global, number: u64, phase: u32, says: &mut Vec<Say>) -> Result<(), Memory>
    requires { phase ≤ 8 }
    ensures { OnOk result (says.new.items ≡ says.old.items ++ said_in_phase number phase) }
{
    for tick in 1..5 {
        push_tick(alloc, number, (phase, tick), says)?;
    }
    Ok(())
}

/// Appends what is said in a phase and a tick.
fn push_tick(
    alloc: Global,
    number: u64,
    when: (u32, u32),
    says: &mut Vec<Say>,
) -> Result<(), Memory>
    requires phase { when.0 ≤ 8 }
    requires tick { when.1 ≤ 4 }
    ensures { OnOk result (says.new.items ≡ says.old.items ++ said_in_tick number when.0 when.1) }
{
    for log in 0..4 {
        if is_said(number, when, log) {
            says.push(make_say(alloc, when, log)?)?;
        }
    }
    Ok(())
}

/// Whether something is said on a log in a phase and a tick.
fn is_said(number: u64, when: (u32, u32), log: u32) -> bool
    requires phase { when.0 ≤ 8 }
    requires tick { when.1 ≤ 4 }
    requires log { log ≤ 4 }
    ensures { result ≡ is_said number when.0 when.1 log }
{
    let parity = (number % 2) as u32;
    (parity + when.0 + when.1 + log) % 2 == 0
}

/// What is said on a log in a phase and a tick.
fn make_say(alloc: Global, when: (u32, u32), log: u32) -> Result<Say, Memory>
    ensures { IfOk result (λ say. say ≡ made_say when.0 when.1 log) }
{
    let (phase, tick) = when;
    Ok(Say {
        phase,
        tick,
        log,
        text: make_note(alloc, phase, tick, log)?,
    })
}
