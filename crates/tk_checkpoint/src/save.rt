//! A state as bytes.
ghost use Rattle.std.specs.Prelude.{◌≡◌, ◌+◌, ◌*◌, ◌≤◌, ◌++◌, List, None, length, OnOk, OnErr, IfErr};
ghost use Rattle.std.specs.Prelude.{vec_len, vec_capacity};
ghost use Rattle.tk_shape.specs.declared.shape.Shape.{Shape};
ghost use Rattle.tk_frames.specs.declared.entry.Placed.{Placed};
ghost use Rattle.tk_replica.specs.Replica.{StandsFor};
ghost use Rattle.tk_checkpoint.specs.Saved.{saved, head_len, head_with, window_bytes};
ghost use Rattle.tk_checkpoint.specs.Sound.{length_due};
ghost use Rattle.tk_checkpoint.specs.Refusals.{checkpoint_refusal, IsCheckpointRefusal};
ghost use Rattle.tk_checkpoint.specs.Writing.{state_bytes};

use crate::CheckpointError;
use crate::append::{put, put_blocks, put_u32, put_u64, put_words};
use crate::head::{HEAD_LEN, entry_len, table_len};
use tk_bloom::Window;
use tk_replica::ReplicaState;
use tk_shape::Shape;

/// Appends the checkpoint of a state that has applied nothing behind its last mark. It makes the
/// room for all bytes first; refused, it appends nothing. The buckets are those of its last epoch,
/// which lie in pages that are copied as they are: at its mark the table has the same.
pub fn checkpoint(state: &ReplicaState, out: &mut Vec<u8>) -> Result<(), CheckpointError>
    ensures written { OnOk result (out.new.items ≡ out.old.items ++ state_bytes state.now) }
    ensures kept { OnErr result (out.new.items ≡ out.old.items) }
    ensures at_mark { OnOk result (checkpoint_refusal state.now ≡ None) }
    ensures refused { IfErr result (IsCheckpointRefusal (checkpoint_refusal state.now)) }

    // whatever entries the state stands for
    ensures saved { (shape : Shape) (E : List Placed) → StandsFor shape E state.now
        → OnOk result (out.new.items ≡ out.old.items ++ saved shape E) }
{
    state.matched();
    let epoch = state.epoch(state.last());
    let (applied, upto) = (state.applied(), epoch.upto());
    if upto != applied {
        return Err(CheckpointError::NotAtMark { applied, upto });
    }
    let window = state.window();
    window.sized();
    out.reserve(checkpoint_len(state.shape(), window.pushes()))?;
    put_head(out, state, window.pushes());
    put_window(out, state.slots().positions(), window);
    put_blocks(out, epoch.blocks());
    Ok(())
}

/// The bytes of a checkpoint with so many writes of the window.
fn checkpoint_len(shape: &Shape, count: u32) -> usize
    requires { count ≤ 131072 }
    ensures { result ≡ length_due shape.now count }
{
    HEAD_LEN + count as usize * entry_len(shape) + table_len(shape) as usize
}

/// Appends the numbers in front, where the window has so many writes.
fn put_head(out: &mut Vec<u8>, state: &ReplicaState, count: u32)
    requires { vec_len out.old + head_len ≤ vec_capacity out.old }
    ensures items { let s = state.now in
        out.new.items ≡ out.old.items ++ head_with s.shape s.applied s.last count }
    ensures len { vec_len out.new ≡ vec_len out.old + head_len }
    ensures capacity { vec_capacity out.old ≤ vec_capacity out.new }
{
    put(out, b"TALK\x01");
    put_u32(out, state.shape().format);
    put_words(out, &state.shape().numbers());
    put_u64(out, state.applied());
    put_u32(out, state.last());
    put_u32(out, count);
}

/// Appends each write of the window: its position, and its hits beside it.
fn put_window(out: &mut Vec<u8>, positions: &[u64], window: &Window)
    requires { let w = window.now in
        vec_len out.old + length w.pushes * (8 + 4 * w.hits) ≤ vec_capacity out.old }
    ensures items { out.new.items ≡ out.old.items ++ window_bytes positions.now window.now.pushes }
    ensures len { let w = window.now in
        vec_len out.new ≤ vec_len out.old + length w.pushes * (8 + 4 * w.hits) }
    ensures capacity { vec_capacity out.old ≤ vec_capacity out.new }
{
    window.sized();
    let count = positions.len().min(window.pushes() as usize);
    for i in 0..count {
        put_u64(out, positions[i]);
        put_words(out, window.hits_at(i as u32));
    }
}
