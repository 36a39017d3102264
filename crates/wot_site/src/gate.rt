//! Gates, and the most bytes of a side.

/// The most bytes of a side.
pub const MOST: u64 = 0xffff_ffff;

/// The byte of an open gate.
pub const OPEN: u8 = 0xa5;
