//! The numbers of a map.

/// The most pairs of a block.
pub const BLOCK_PAIRS: usize = 128;
