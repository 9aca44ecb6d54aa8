//! The numbers of a stream map.

use groundwork::MOST_PIECE_BYTES;

/// The bytes of an entry: eight of the id, then four of the length.
pub const ENTRY_BYTES: usize = 12;

/// The most bytes of a file that one entry stands for: those of a piece.
pub const MOST_LENGTH: u32 = MOST_PIECE_BYTES;
