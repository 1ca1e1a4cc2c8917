//! The first two bytes of a frame: its kind, and the version. Kinds 8 to 10 are those of reads by way of a server.

pub const WRITE: u8 = 1;

/// A read that tells its vectors as they are.
pub const READ: u8 = 2;

pub const REPLY: u8 = 3;

pub const MARK: u8 = 4;

pub const RECORD: u8 = 5;

/// A read that tells its vectors by seeds.
pub const SEEDED: u8 = 6;

/// A read that shows its vectors after their seeds.
pub const SHOWN: u8 = 7;

pub const VERSION: u8 = 1;
