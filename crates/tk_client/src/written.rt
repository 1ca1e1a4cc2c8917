/// A log that is written, and how many texts it was given.
#[derive(Clone, Copy, Debug)]
pub struct Written {
    pub log: u32,
    pub count: u64,
}
