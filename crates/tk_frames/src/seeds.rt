use tk_shape::{Bytes, Memory};

/// How a read tells a server its two vectors. Seeds are those of the first bucket and then of the second.
#[derive(Debug, Drop)]
pub enum Seeds {
    /// As they are.
    Plain,
    /// By the seeds that expand to them.
    Seeded(Bytes),
    /// As they are, after the seeds that they come with.
    Shown(Bytes),
}

impl Seeds {
    /// The buffer of the seeds is spare from now on.
    pub fn give_back(self, spare: &mut Vec<Vec<u8>>) -> Result<(), Memory> {
        match self {
            Seeds::Plain => {}
            Seeds::Seeded(seeds) => spare.push(seeds.into_vec())?,
            Seeds::Shown(seeds) => spare.push(seeds.into_vec())?,
        }
        Ok(())
    }
}
