//! An ordered map from byte strings to byte strings, for millions of pairs.
//!
//! The pairs stand in blocks of at most [`BLOCK_PAIRS`] pairs, and the blocks in a list, so that no call moves more
//! than the pairs of a block and the list of blocks. Contracts see a [`ByteMap`] as the list of its pairs in the order
//! of their keys, under std's `find` and `put`.
#![tactic(auto)]

mod block;
mod blocks;
mod counts;
mod drops;
pub mod laws;
mod limits;
mod map;
mod not_put;
mod pair;
mod place;
mod walk;

pub use limits::BLOCK_PAIRS;
pub use map::ByteMap;
pub use not_put::NotPut;
pub use walk::Walk;
