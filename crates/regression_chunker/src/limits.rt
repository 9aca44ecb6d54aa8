//! The numbers of the cut rule.

use groundwork::MOST_PIECE_BYTES;

/// The bytes of a window.
pub const WINDOW: usize = 48;

/// A piece has at least so many bytes, unless the file ends.
pub const LEAST: usize = 32_768;

/// A piece has at most so many bytes.
pub const MOST: usize = MOST_PIECE_BYTES as usize;

/// So many low bits of a print are all 1 at a full match, the place that is preferred for a cut.
pub const FULL_BITS: u32 = 16;

/// So many low bits are all 1 at the poorest match that the regression takes.
pub const LEAST_BITS: u32 = 12;
