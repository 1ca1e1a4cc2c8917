use tk_shape::Bytes;

/// A text that waits to be written. Its number is how many texts its log was given before it.
#[derive(Debug, Drop)]
pub struct Waiting {
    pub log: u32,
    pub number: u64,
    pub text: Bytes,
}
