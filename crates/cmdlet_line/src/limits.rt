// The limits of a line.
use plain_volume::limits::MOST_BYTES_OF_A_CALL;

/// The most bytes of a line, without its newline and a carriage return before that.
pub const MOST_LINE: usize = 4096;

/// The most digits of a number.
pub const MOST_DIGITS: usize = 20;

/// The most bytes that a line asks to write or to read: those of a call.
pub const MOST_COUNT: u64 = MOST_BYTES_OF_A_CALL;
