ghost use Rattle.std.specs.Prelude.{◌≡◌};
ghost use Rattle.tk_schedule.specs.Schedule.{IsLegal};

use tk_schedule::History;
use tk_script::Script;
use tk_words::Draws;

/// What a run goes by: a script, the words of its book, and a legal history of its shape.
#[derive(Drop)]
pub struct Plan<'a, D: Draws> {
    pub script: &'a Script,
    pub draws: &'a D,
    pub history: &'a History,
    pub ghost one_shape: { D.shape draws.now ≡ script.now.shape },
    pub ghost legal: { IsLegal script.now.shape history.now },
}
