use crate::target::Target;

/// A read whose replies are awaited.
#[derive(Clone, Copy, Debug)]
pub struct OpenRead {
    pub turn: u32,
    pub epoch: u32,
    /// What it is for; none where it is a dummy.
    pub target: Option<Target>,
}
