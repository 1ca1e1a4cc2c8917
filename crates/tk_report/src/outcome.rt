ghost use Rattle.tk_report.specs.Leaving.{IsOutcome, CountsSaid};

use crate::{Clients, count_said, ends};
use tk_client::Client;
use tk_schedule::History;
use tk_script::{Roles, Script};
use tk_shape::{Memory, Shape};

/// What a run leaves: its history, its clients as they are at the end, how many texts were said, and
/// how many writes were displaced when they came.
#[derive(Debug, Drop)]
pub struct Outcome {
    pub shape: Shape,
    pub roles: Roles,
    pub history: History,
    pub clients: Clients,
    pub said: u32,
    pub displaced: u32,
    pub ghost sound: { IsOutcome shape roles history clients },
    pub ghost counted: { CountsSaid shape clients said },
}

impl Outcome {
    ghost use Rattle.std.specs.Prelude.{IfOk};
    ghost use Rattle.tk_words.specs.Words.{BookWords};
    ghost use Rattle.tk_report.specs.Outcomes.{HasEnded, IsLeftBy};

    /// What a run of a script leaves that had this history and has these clients at its end, where so
    /// many of its writes were displaced.
    pub fn of(
        script: &Script,
        history: History,
        clients: Vec<Client>,
        displaced: u32,
    ) -> Result<Outcome, Memory>
        requires { (w : BookWords) × HasEnded script.now w history clients.items displaced }
        ensures { (w : BookWords) → HasEnded script.now w history clients.items displaced
            → IfOk result (IsLeftBy script.now w history) }
    {
        let said = count_said(script)?;
        let roles = script.roles.clone()?;
        ends();
        Ok(Outcome {
            shape: script.shape,
            roles,
            history,
            clients: Clients::from_vec(clients),
            said,
            displaced,
        })
    }
}
