//! The lengths that a shape gives, in bytes but for `turns`.
ghost use Rattle.std.specs.Prelude.{◌≡◌, ◌≤◌};
ghost use Rattle.tk_shape.specs.Lengths as formula;

use crate::Shape;

impl Shape {
    /// Turns of a run, which are the numbers of a log.
    pub fn turns(&self) -> u32
        ensures count { result ≡ formula.turn_count self.now }
        ensures most { result ≤ 16384 }
    {
        self.phases * self.ticks
    }

    /// A slot of a bucket: a position, two buckets, a block.
    pub fn slot_len(&self) -> u32
        ensures { result ≡ formula.slot_len self.now }
    {
        16 + self.block
    }

    /// A bucket.
    pub fn width(&self) -> u32
        ensures { result ≡ formula.width self.now }
    {
        self.depth * self.slot_len()
    }

    /// A vector with one bit for each bucket.
    pub fn vector_len(&self) -> u32
        ensures { result ≡ formula.vector_len self.now }
    {
        self.buckets / 8
    }

    /// A seed that expands to a vector: none in format 1.
    pub fn seed_len(&self) -> u32
        ensures { result ≡ formula.seed_len self.now }
    {
        if self.format == 2 { 32 } else { 0 }
    }

    /// A piece of a read cell: a seed, and then a vector.
    pub fn piece_len(&self) -> u32
        ensures { result ≡ formula.piece_len self.now }
    {
        self.seed_len() + self.vector_len()
    }

    /// A write cell or a keyed cell of a tape.
    pub fn cell_len(&self) -> u32
        ensures { result ≡ formula.cell_len self.now }
    {
        8 + 4 * self.hits + self.block
    }

    /// A read cell of a tape.
    pub fn read_cell_len(&self) -> u32
        ensures { result ≡ formula.read_cell_len self.now }
    {
        8 + 2 * (self.servers - 1) * self.piece_len()
    }

    /// A tape: write cells and read cells by turn and client, keyed cells by log and number.
    pub fn tape_len(&self) -> u64
        ensures { result ≡ formula.tape_len self.now }
    {
        let cell = u64::from(self.cell_len());
        let fresh = u64::from(self.clients) * (cell + u64::from(self.read_cell_len()));
        u64::from(self.turns()) * (fresh + u64::from(self.logs) * cell)
    }

    /// The frame of a write.
    pub fn write_len(&self) -> u32
        ensures { result ≡ formula.write_len self.now }
    {
        18 + 4 * self.hits + self.block
    }

    /// The frame of a record, a write with its position.
    pub fn record_len(&self) -> u32
        ensures { result ≡ formula.record_len self.now }
    {
        26 + 4 * self.hits + self.block
    }

    /// The frame of a read of the last server, or of any in format 1.
    pub fn read_len(&self) -> u32
        ensures { result ≡ formula.read_len self.now }
    {
        14 + 2 * self.vector_len()
    }

    /// The frame of a read with two seeds, and with the two vectors too where they are shown.
    pub fn seed_read_len(&self, shown: bool) -> u32
        ensures { result ≡ formula.seed_read_len self.now shown }
    {
        if shown {
            78 + 2 * self.vector_len()
        } else {
            78
        }
    }

    /// The frame of a reply.
    pub fn reply_len(&self) -> u32
        ensures { result ≡ formula.reply_len self.now }
    {
        14 + 2 * self.width()
    }
}
