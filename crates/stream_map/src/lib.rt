//! Stream maps: a stream map tells of which chunks the bytes of a file are made, in order. It is a list of
//! entries, one a piece of the file, and an entry names the chunk and its length.
//!
//! Here are an entry and its bytes, a walk over the entries of a map that finds the first bad one, and the
//! definitions of what bytes spell and of which entry covers an offset of the file. Nothing here takes memory.
#![tactic(auto)]

mod entry;
mod fault;
pub mod laws;
mod limits;
mod walk;

pub use entry::{Entry, decode_entry, encode_entry};
pub use fault::MapFault;
pub use limits::{ENTRY_BYTES, MOST_LENGTH};
pub use walk::Walk;
