//! The sizes of spelled keys, values and lists, in bytes.

/// Room enough for a key of a [`Table`](crate::Table).
pub const MOST_KEY_BYTES: usize = 32;

/// Room enough for a value of a [`Table`](crate::Table).
pub const MOST_VALUE_BYTES: usize = 64;

/// Room enough for the key of a name.
pub const MOST_NAME_KEY_BYTES: usize = 256;

/// The most bytes that the texts of one list take, each with its length of two bytes.
pub const MOST_LIST_BYTES: usize = 8_192;
