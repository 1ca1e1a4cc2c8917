use tk_shape::Bytes;

/// What a reader knows of one number of a log.
#[derive(Debug, Drop)]
pub enum Got {
    /// A later number came, and this one had not.
    Absent,
    Text(Bytes),
}
