ghost use Rattle.tk_cluster.specs.Clusters.{HaveMet};

use crate::{Cluster, Pass, Publisher};
use tk_order::Naming;
use tk_shape::Memory;

impl<B: Naming> Cluster<B> {
    /// All have seen one list then, which begins with what each had seen. It waits for nobody, and
    /// orders nothing.
    pub fn meet(&self, passes: &mut [Pass<B>], publisher: &mut Publisher<B>) -> Result<(), Memory>
        ensures { HaveMet B.shape passes.old publisher.old passes.new publisher.new }
    {
        self.gather(passes, publisher);
        Ok(())
    }

    /// Takes in what the passes have seen, and gives each a note of all of it.
    fn gather(&self, passes: &mut [Pass<B>], publisher: &mut Publisher<B>)
        ensures { HaveMet B.shape passes.old publisher.old passes.new publisher.new }
    {
        let Some((first, rest)) = passes.split_first_mut() else {
            publisher.stands();
            return;
        };
        let note = first.note(&self.order);
        publisher.take_in(&self.order, note);
        self.gather(rest, publisher);
        let note = publisher.note(&self.order);
        first.take_in(&self.order, note);
    }
}
