/// A fault of a source, a sink or a tap: the call took nothing, and gave nothing or a prefix.
#[derive(Clone, Copy, Debug, PartialEq, Eq)]
pub struct Failed;
