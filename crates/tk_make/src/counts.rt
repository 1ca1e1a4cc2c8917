/// What is counted of a run.
#[derive(Clone, Copy)]
pub(crate) struct Counts {
    pub said: u64,
    pub sent: u64,
    pub dummies: u64,
    pub displaced: u64,
    pub delivered: u64,
    pub absent: u64,
    pub unsent: u64,
}
