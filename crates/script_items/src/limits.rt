// The limits of a script, in one place.
use cmdlet_line::MOST_LINE;

/// The most bytes of a script, 2^40.
pub const MOST_SCRIPT: u64 = 1_099_511_627_776;

/// The bytes of a line that are kept: two more than a line may have, so that one is seen to be too long also where a
/// carriage return stands before its newline.
pub const MOST_KEPT: usize = MOST_LINE + 2;

/// The bytes that are read ahead of a script at a time.
pub const MOST_AHEAD: usize = 65_536;

/// The volume text of a script.
pub const VOLUME: [u8; 2] = [b'D', b':'];
