//! The answer on a window of a file.

/// Where the rest of a file is cut, as far as the bytes given tell.
#[derive(Clone, Copy, Debug, PartialEq, Eq)]
pub enum Cut {
    /// The next piece has so many bytes.
    At(usize),
    /// The bytes given do not decide it.
    NeedMore,
}
