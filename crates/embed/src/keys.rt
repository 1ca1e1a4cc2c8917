ghost use Rattle.std.specs.Prelude.{◌≡◌, IfOk};

use std::alloc::Global;
use tk_handle::Handle;
use tk_shape::{Memory, Shape};
use tk_words::{Draws, KeyedDraws};

/// The root of all handles here. Real ones are drawn, and kept.
const ROOT: [u8; 32] = [7; 32];

/// The words of keys that anyone can read here, so for trials alone: a handle for each log, and a
/// seed for each client.
pub fn keyed_draws(alloc: Global, shape: &Shape) -> Result<KeyedDraws, Memory>
    ensures { IfOk result (λ draws. ⟦<KeyedDraws as Draws>⟧.shape draws ≡ shape.now) }
{
    let mut handles = Vec::new(alloc);
    'handles: for log in 0..shape.logs {
        handles.push(Handle::from_root(u64::from(log), &ROOT))?;
    }
    let mut seeds = Vec::new(alloc);
    'seeds: for client in 0..shape.clients {
        seeds.push([client as u8; 32])?;
    }
    Ok(KeyedDraws::new(shape, handles, seeds))
}
