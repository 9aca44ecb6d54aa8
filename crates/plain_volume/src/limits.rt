//! The limits of a volume.

use groundwork::MOST_NAME_BYTES;

/// The bytes of a block of a file, and so of a cluster of an image, which holds one.
pub const BLOCK_BYTES: u64 = 4_096;

/// The most files of a volume.
pub const MOST_FILES: u64 = 65_536;

/// The most bytes of one write, and of one read.
pub const MOST_BYTES_OF_A_CALL: u64 = 1_048_576;

/// The most bytes of a file.
pub const MOST_BYTES_OF_A_FILE: u64 = 1_073_741_824;

/// The most bytes of a name. The least is 1.
pub const MOST_BYTES_OF_A_NAME: usize = MOST_NAME_BYTES;
