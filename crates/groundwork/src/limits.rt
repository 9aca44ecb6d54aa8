//! Limits that several crates share.

/// The most bytes of a piece of a file, and so of a chunk.
pub const MOST_PIECE_BYTES: u32 = 131_072;

/// The most bytes of a name. The least is 1.
pub const MOST_NAME_BYTES: usize = 255;

/// The last id, 2^48 - 1, which is never drawn. Files, rows and containers draw from 1 on.
pub const LAST_ID: u64 = 281_474_976_710_655;
