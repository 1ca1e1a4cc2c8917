ghost use Rattle.std.specs.Prelude.{◌≡◌, ◌++◌, ◌∷◌, [], map, OnOk};
ghost use Rattle.std.specs.List.{AllByRecursion};
ghost use Rattle.tk_script.specs.Printing.{text_of, handle_line, seed_line, lines_of_keys};
ghost use Rattle.tk_script.specs.Printing.{HasHandle, HasSeed, HasKeys};

use crate::Keys;
use crate::line_text::push_bytes_line;
use std::alloc::Global;
use tk_handle::Handle;
use tk_shape::Memory;

/// Appends the lines of the handles, then of the seeds: a drawn script has none.
pub(crate) fn push_keys(alloc: Global, keys: &Option<Keys>, out: &mut Vec<u8>) -> Result<(), Memory>
    ensures ok { OnOk result (out.new.items ≡ out.old.items ++ text_of (lines_of_keys keys.now)) }
    ensures has { OnOk result (HasKeys keys.now) }
{
    let Some(keys) = keys else {
        return Ok(());
    };
    push_handles(alloc, keys.handles.as_slice(), out)?;
    push_seeds(alloc, keys.seeds.as_slice(), out)?;
    Ok(())
}

/// Appends a line for each handle.
fn push_handles(alloc: Global, handles: &[Handle], out: &mut Vec<u8>) -> Result<(), Memory>
    ensures ok { OnOk result (out.new.items
        ≡ out.old.items ++ text_of (map handle_line handles.now)) }
    ensures has { OnOk result (AllByRecursion HasHandle handles.now) }
{
    for handle in handles {
        push_handle(alloc, *handle, out)?;
    }
    Ok(())
}

/// Appends the line of a handle.
fn push_handle(alloc: Global, handle: Handle, out: &mut Vec<u8>) -> Result<(), Memory>
    ensures ok { OnOk result (out.new.items
        ≡ out.old.items ++ text_of (handle_line handle ∷ [])) }
    ensures has { HasHandle handle }
{
    push_bytes_line(alloc, b"handle", handle.to_bytes().as_slice(), out)
}

/// Appends a line for each seed.
fn push_seeds(alloc: Global, seeds: &[[u8; 32]], out: &mut Vec<u8>) -> Result<(), Memory>
    ensures ok { OnOk result (out.new.items
        ≡ out.old.items ++ text_of (map seed_line seeds.now)) }
    ensures has { OnOk result (AllByRecursion HasSeed seeds.now) }
{
    for seed in seeds {
        push_seed(alloc, seed, out)?;
    }
    Ok(())
}

/// Appends the line of a seed.
fn push_seed(alloc: Global, seed: &[u8; 32], out: &mut Vec<u8>) -> Result<(), Memory>
    ensures ok { OnOk result (out.new.items
        ≡ out.old.items ++ text_of (seed_line seed.now ∷ [])) }
    ensures has { HasSeed seed.now }
{
    let seed = *seed;
    push_bytes_line(alloc, b"seed", seed.as_slice(), out)
}
