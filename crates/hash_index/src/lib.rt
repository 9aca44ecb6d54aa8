//! Indexes from digests to ids: which ids are held under a digest, in the order of the ids.
//!
//! An index stands for a list of pairs of a digest and an id. This is a relation and no function, since an index may
//! keep no digests: [`CompactIndex`] keeps the ids alone and asks a [`Digests`] for the rest.
#![tactic(auto)]

mod calls;
mod compact;
mod ordered;
mod probe;
mod slot;
mod table;
mod traits;

pub use calls::{Answer, Request, answers_are_alike, ask};
pub use compact::CompactIndex;
pub use groundwork::Memory;
pub use ordered::OrderedIndex;
pub use traits::{Digests, Index, LARGEST_ID};
