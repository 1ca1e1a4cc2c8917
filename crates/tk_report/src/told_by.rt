ghost use Rattle.tk_report.specs.Leaving.{IsOutcome};

use crate::left::Left;
use tk_schedule::History;
use tk_script::{Role, Roles};
use tk_shape::Shape;

/// What a report tells of: who writes and follows each log, a history, and what is left of the
/// clients at its end.
#[derive(Drop)]
pub(crate) struct Telling<'a, L: Left> {
    pub shape: &'a Shape,
    pub roles: &'a Roles,
    pub history: &'a History,
    pub left: &'a L,
    pub ghost sound: { IsOutcome shape.now roles.now history.now (L.clients left.now) },
}

impl<'a, L: Left> Telling<'a, L> {
    ghost use Rattle.std.specs.Prelude.{◌≡◌, ◌<◌, ℕ, length, slice_get, slice_index, Some};

    /// Who writes and follows a log.
    pub(crate) fn role(&self, log: u32) -> &Role
        requires { log < self.now.shape.now.logs }
        ensures role { slice_get self.now.roles.now log ≡ Some result.now }
        ensures followers_in { (i : ℕ) → i < length result.now.followers →
            slice_index result.now.followers i < length (L.clients self.now.left.now) }
    {
        &self.roles.as_slice()[log as usize]
    }
}
