// The numbers of the journal, in bytes where not said.

/// The most bytes of records that may be staged between two commits.
pub const MOST_STAGED: usize = 65_536;

/// The bytes of a checkpoint before its body: gate, epoch, length and digest.
pub const CHECKPOINT_HEAD: usize = 45;

/// The bytes of the least half, which has room for an empty checkpoint.
pub const LEAST_HALF: u64 = CHECKPOINT_HEAD as u64;

/// The bytes of a group before its body: gate, length and digest.
pub const GROUP_HEAD: u64 = 1 + BEFORE_BODY as u64;

// A group's length and digest, which stand between its gate and its body.
pub(crate) const BEFORE_BODY: usize = 36;

/// The bytes of a record before its two strings: tag and two lengths.
pub const RECORD_HEAD: u64 = 5;

// The bytes that the buffer of the staged records has room for: those before them, and a closed gate behind them.
pub(crate) const STAGED_ROOM: usize = BEFORE_BODY + MOST_STAGED + 1;

// The bytes that a checkpoint's buffer has room for.
pub(crate) const STREAM_ROOM: usize = 65_536;

// The last epoch, 2^63 - 1.
pub(crate) const LAST_EPOCH: u64 = 9_223_372_036_854_775_807;

// The tag of a record that sets a pair.
pub(crate) const PUT: u8 = 1;

// The tag of a record that drops a range of keys.
pub(crate) const DROP_RANGE: u8 = 2;
