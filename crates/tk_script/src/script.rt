ghost use Rattle.tk_script.specs.SoundScript.{IsScript};

use crate::{Keys, Role, Roles, Say, Says};
use tk_shape::Shape;

/// A group and what it says: the numbers of the run, keys unless the words are drawn, who writes
/// and follows each log, and the texts in the order in which they are said.
#[derive(Debug, Drop)]
pub struct Script {
    pub shape: Shape,
    pub keys: Option<Keys>,
    pub roles: Roles,
    pub says: Says,
    pub ghost sound: { IsScript shape keys roles says },
}

impl Script {
    ghost use Rattle.std.specs.Prelude.{◌≡◌, ◌+◌, ◌<◌, ◌≤◌, ℕ, length, IsTrue, slice_get};
    ghost use Rattle.std.specs.Prelude.{slice_index, Some};
    ghost use Rattle.tk_seal.specs.Texts.{is_allowed};

    /// Who writes and follows a log.
    pub fn role(&self, log: u32) -> &Role
        requires { log < self.now.shape.logs }
        ensures role { slice_get self.now.roles log ≡ Some result.now }
        ensures writer_in { result.now.writer < self.now.shape.clients }
        ensures followers_in { (i : ℕ) → i < length result.now.followers →
            slice_index result.now.followers i < self.now.shape.clients }
    {
        &self.roles.as_slice()[log as usize]
    }

    /// The text that is said at a place of the order.
    pub fn say(&self, place: usize) -> &Say
        requires { place < length self.now.says }
        ensures say { slice_get self.now.says place ≡ Some result.now }
        ensures phase_low { 1 ≤ result.now.phase }
        ensures phase_high { result.now.phase ≤ self.now.shape.phases }
        ensures tick_low { 1 ≤ result.now.tick }
        ensures tick_high { result.now.tick ≤ self.now.shape.ticks }
        ensures log_in { result.now.log < self.now.shape.logs }
        ensures fits { length result.now.text + 18 ≤ self.now.shape.block }
        ensures allowed { IsTrue (is_allowed result.now.text) }
    {
        &self.says.as_slice()[place]
    }
}
