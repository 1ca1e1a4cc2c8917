ghost use Rattle.std.specs.Prelude.{◌≡◌, ◌/◌, ◌≤◌};

/// Who answers reads: so many workers, and for them so many ranges of each server's blocks.
#[derive(Clone, Copy, Drop)]
pub(crate) struct Crew {
    pub workers: u32,
    pub shards: u32,
    pub ghost workers_in: { (1 ≤ workers) × (workers ≤ 64) },
    pub ghost shards_in: { (1 ≤ shards) × (shards ≤ 64) },
}

impl Crew {
    /// The crew of each of so many sides, which have an equal part of the workers.
    pub(crate) fn part(&self, sides: u32) -> Crew
        requires some { 1 ≤ sides }
        requires most { sides ≤ self.now.workers }
        ensures workers { result.workers ≡ self.now.workers / sides }
        ensures shards { result.shards ≡ self.now.shards }
    {
        Crew {
            workers: self.workers / sides,
            shards: self.shards,
        }
    }
}
