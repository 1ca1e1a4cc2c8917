//! What a count over all lists counts, and which changes keep it.
ghost use Rattle.tk_counts.specs.Laws.{AllCounted, AsMany, EachOnce, NoneElse};

/// Each list of n numbers below a bound is once among all of them, and nothing else is.
pub fn all_lists()
    ensures once { EachOnce }
    ensures none_else { NoneElse }
    ensures counted { AllCounted }
{}

/// A change of them that is one to one keeps how many pass a test.
pub fn as_many()
    ensures { AsMany }
{}
