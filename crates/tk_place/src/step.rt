/// A slot of a bucket, as one end of a move.
#[derive(Clone, Copy, Debug, PartialEq, Eq, Drop)]
pub struct Step {
    pub bucket: u32,
    pub slot: u32,
}
