/// Which number of which log a read is for.
#[derive(Clone, Copy, Debug)]
pub struct Target {
    /// The log's place among those followed.
    pub place: usize,
    pub log: u32,
    pub number: u32,
    /// How far ahead of the log's next number it is.
    pub ahead: u32,
}
