ghost use Rattle.tk_make.specs.Tallies.{OutcomesTally};

/// What is counted of what a run left is what its script, its words and its history give.
pub fn tallies()
    ensures { OutcomesTally }
{}
