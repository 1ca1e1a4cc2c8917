ghost use Rattle.std.specs.Prelude.{◌≡◌, ◌<◌, [], length, IfOk, slice_index_or};
ghost use Rattle.tk_place.specs.Views.{spot_of};

use crate::queue::Queue;
use crate::{Memory, Step};
use std::alloc::Global;
use std::marker::Model;

/// Room for a search in a table with so many buckets, and the steps that the last search found.
#[derive(Drop)]
pub struct Scratch {
    pub(crate) queue: Queue,
    pub(crate) steps: Vec<Step>,
    pub(crate) count: u32,
}

impl Model for Scratch {
    ghost use Rattle.tk_place.specs.Views.{Steps};

    ghost Value = { Steps };

    ghost use Rattle.tk_place.specs.Scratch.{steps_of, IsScratch};

    ghost view = { steps_of };

    ghost invariant = { IsScratch };
}

impl Scratch {
    /// Room for a search in a table with so many buckets. There are no steps yet.
    pub fn new(alloc: Global, buckets: u32) -> Result<Scratch, Memory>
        ensures buckets { IfOk result (λ s. s.buckets ≡ buckets) }
        ensures steps { IfOk result (λ s. s.steps ≡ []) }
    {
        let nowhere = Step { bucket: 0, slot: 0 };
        Ok(Scratch {
            queue: Queue::new(alloc, buckets)?,
            steps: vec![in alloc; nowhere; buckets as usize]?,
            count: 0,
        })
    }

    /// A step of the chain that the last search found. Step 0 is the empty slot, and the entry at step `i + 1` moves to
    /// step `i`; the last step is the new entry's place.
    pub fn step(&self, i: u32) -> Step
        requires { i < length self.now.steps }
        ensures { spot_of result ≡ slice_index_or self.now.steps i (0, 0) }
    {
        self.steps[i as usize]
    }
}
