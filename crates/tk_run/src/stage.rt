ghost use Rattle.std.specs.Prelude.{◌≡◌};

use crate::crew::Crew;
use crate::sums::Sums;
use tk_cluster::Cluster;
use tk_io::Gate;
use tk_order::Naming;
use tk_script::Script;
use tk_words::Draws;

/// What stays the same in a run of threads.
#[derive(Drop)]
pub(crate) struct Stage<'a, B: Naming, D: Draws, G: Gate, A: Sums> {
    pub script: &'a Script,
    pub draws: &'a D,
    pub gate: &'a G,
    pub sums: &'a A,
    pub cluster: &'a Cluster<B>,
    pub crew: Crew,
    pub ghost same: { B.shape ≡ script.now.shape },
    pub ghost one_shape: { D.shape draws.now ≡ script.now.shape },
}
