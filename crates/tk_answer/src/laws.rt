ghost use Rattle.tk_answer.specs.Runs.{PartsAreRuns};

/// What blocks that lie in one slice may give as their runs.
pub fn parts_are_runs()
    ensures { PartsAreRuns }
{}
