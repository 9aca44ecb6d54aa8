// The limits of a run.

/// The most calls that a line makes.
pub const MOST_CALLS_OF_A_LINE: u64 = 1_048_576;
