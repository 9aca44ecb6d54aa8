//! What is wrong with a stream map.
use thiserror::Error;

/// Why bytes are no stream map.
#[derive(Clone, Copy, Debug, Error)]
pub enum MapFault {
    /// There are no bytes, or the last entry is not whole.
    #[error("the length of the map is 0, or no multiple of 12")]
    BadLength,
    /// The entry of this number, counted from 0, has a length of 0 or above 131,072.
    #[error("entry {0} has a length of 0, or above 131,072")]
    ZeroPiece(u32),
}
