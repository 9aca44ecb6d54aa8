//! Content-defined chunking with regression: the print of a window of bytes, and the places at which a
//! file is cut into pieces so that equal stretches of two files mostly give equal pieces.
//!
//! The print is a fingerprint in the manner of Rabin, "Fingerprinting by Random Polynomials" (1981). The
//! cut rule is that of El-Shimi and others, "Primary Data Deduplication: Large Scale Study and System
//! Design" (2012). Nothing here takes memory.
#![tactic(auto)]

mod cuts;
mod fast;
mod fingerprint;
pub mod laws;
mod limits;
mod plain;
mod remainder;
mod seen;
mod tables;

pub use cuts::Cut;
pub use fast::next_cut;
pub use fingerprint::Print;
pub use limits::{FULL_BITS, LEAST, LEAST_BITS, MOST, WINDOW};
pub use plain::next_cut_plain;
