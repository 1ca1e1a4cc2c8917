ghost use Rattle.std.specs.Prelude.{◌≡◌, ◌++◌, ◌∷◌, [], OnOk, IfOk};
ghost use Rattle.tk_run.specs.Rows.{AreRows, AreAdded, no_frames};

use std::alloc::Global;
use std::marker::Model;
use tk_shape::{Bytes, Memory};

/// Frames, seen as their list.
#[derive(Drop)]
pub(crate) struct Frames {
    items: Vec<Bytes>,
}

impl Model for Frames {
    ghost use Rattle.std.specs.Prelude.{List, ℕ};

    ghost Value = { List (List ℕ) };

    ghost view = { λ f. f.items.items };
}

impl Frames {
    /// No frames.
    pub(crate) fn new(alloc: Global) -> Frames
        ensures { result ≡ [] }
    {
        Frames {
            items: Vec::new(alloc),
        }
    }

    pub(crate) fn as_slice(&self) -> &[Bytes]
        ensures { result.now ≡ self.now }
    {
        self.items.as_slice()
    }

    /// Puts a frame after the others.
    pub(crate) fn push(&mut self, frame: Bytes) -> Result<(), Memory>
        ensures { OnOk result (self.new ≡ self.old ++ frame ∷ []) }
    {
        self.items.push(frame)?;
        Ok(())
    }
}

/// So many lists without frames.
pub(crate) fn empty_rows(alloc: Global, count: u32) -> Result<Vec<Frames>, Memory>
    ensures { IfOk result (λ rows. AreRows count no_frames rows.items) }
{
    let mut rows = Vec::new(alloc);
    for _ in 0..count {
        rows.push(Frames::new(alloc))?;
    }
    Ok(rows)
}

/// Puts each frame after the frames of its place's list.
pub(crate) fn deal(rows: &mut [Frames], mut frames: Vec<Bytes>) -> Result<(), Memory>
    ensures { OnOk result (AreAdded rows.old frames.items rows.new) }
{
    // (there is one for each list)
    if frames.len() != rows.len() {
        return Err(Memory);
    }
    'dealing: while let Some(frame) = frames.pop() {
        rows[frames.len()].push(frame)?;
    }
    Ok(())
}
