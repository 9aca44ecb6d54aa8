//! What the other crates stand on: want of memory, limits that several share, and in `proofs` small laws of truth values, orders and bytes.
#![tactic(auto)]

mod limits;
mod memory;

pub use limits::{LAST_ID, MOST_NAME_BYTES, MOST_PIECE_BYTES};
pub use memory::Memory;
