//! A state from a checkpoint.
ghost use Rattle.std.specs.Prelude.{◌≡◌, List, None, IfOk, IfErr, OnOk};
ghost use Rattle.std.specs.Result.{result_err};
ghost use Rattle.tk_frames.specs.declared.entry.Placed.{Placed};
ghost use Rattle.tk_frames.specs.InOrder.{IsOrder};
ghost use Rattle.tk_replica.specs.Replica.{StandsFor};
ghost use Rattle.tk_replica.specs.Restoring.{EndsWithMark};
ghost use Rattle.tk_checkpoint.specs.Saved.{saved, saved_of};
ghost use Rattle.tk_checkpoint.specs.Reading.{saved_in};
ghost use Rattle.tk_checkpoint.specs.Sound.{first_refusal, restore_checks, IsSound, IsRefusal};
ghost use Rattle.tk_checkpoint.specs.Refusals.{checkpoint_refusal};
ghost use Rattle.tk_checkpoint.specs.Writing.{state_bytes};
ghost use Rattle.tk_checkpoint.specs.Restored.{GoesOnFrom};

use crate::RestoreError;
use crate::head::{HEAD_LEN, check_head, entry_len, head_of};
use crate::slots::check_slots;
use crate::window::check_window;
use crate::writes::{hits_of, positions_of};
use std::alloc::Global;
use tk_bloom::Window;
use tk_replica::ReplicaState;
use tk_shape::{Memory, Shape};
use tk_table::Table;

/// The state that goes on from a checkpoint. Bytes that aren't sound are refused for the first
/// check that they fail, before any memory is taken. It needs 128 KiB of stack for what it has found.
pub fn restore(alloc: Global, shape: &Shape, bytes: &[u8]) -> Result<ReplicaState, RestoreError>
    ensures sound { OnOk result (IsSound shape.now bytes.now) }
    ensures refused { IfErr result (IsRefusal (first_refusal (restore_checks shape.now bytes.now))) }
    ensures shape { IfOk result (λ s. s.shape ≡ shape.now) }
    ensures floor { IfOk result (λ s. s.floor ≡ s.last) }

    ensures parts { IfOk result (λ s. saved_of s ≡ saved_in shape.now bytes.now) }

    // its checkpoint is these bytes again
    ensures at_mark { IfOk result (λ s. checkpoint_refusal s ≡ None) }
    ensures again { IfOk result (λ s. state_bytes s ≡ bytes.now) }

    // whatever entries that end with a mark, or none, the bytes are the checkpoint of
    ensures stands { (E : List Placed) → IsOrder shape.now E → EndsWithMark E
        → bytes.now ≡ saved shape.now E → IfOk result (StandsFor shape.now E) }
{
    check(shape, bytes)?;
    Ok(state_of(alloc, shape, bytes)?)
}

/// Refuses bytes for the first check that they fail.
fn check(shape: &Shape, bytes: &[u8]) -> Result<(), RestoreError>
    ensures { result_err result ≡ first_refusal (restore_checks shape.now bytes.now) }
{
    check_head(shape, bytes)?;
    let head = head_of(bytes);
    let (_, rest) = bytes.split_at(HEAD_LEN);
    check_window(shape, &head, rest)?;
    let (_, table) = rest.split_at(head.count as usize * entry_len(shape));
    check_slots(shape, head.count, rest, table)
}

/// The state that sound bytes have.
fn state_of(alloc: Global, shape: &Shape, bytes: &[u8]) -> Result<ReplicaState, Memory>
    requires { IsSound shape.now bytes.now }
    ensures parts { IfOk result (GoesOnFrom shape.now bytes.now) }
    ensures stands { (E : List Placed) → IsOrder shape.now E → EndsWithMark E
        → bytes.now ≡ saved shape.now E → IfOk result (StandsFor shape.now E) }
{
    let head = head_of(bytes);
    let (_, rest) = bytes.split_at(HEAD_LEN);
    let (_, slots) = rest.split_at(head.count as usize * entry_len(shape));
    let positions = positions_of(alloc, shape, head.count, rest)?;
    let hits = hits_of(alloc, shape, head.count, rest)?;
    let table = Table::restore(alloc, shape, positions.as_slice(), slots)?;
    let window = Window::restore(
        alloc,
        shape.filter_bits,
        shape.hits,
        shape.retained,
        hits.as_slice(),
    )?;
    ReplicaState::restore(alloc, shape, head.applied, head.last, table, window)
}
