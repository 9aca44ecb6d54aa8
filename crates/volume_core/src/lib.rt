//! A volume: the calls of its users, over its tables and its files.
#![tactic(auto)]

mod changes;
mod durable;
mod hashing;
pub mod laws;
mod lending;
mod opening;
mod reads;
mod volume;

pub use volume::Volume;
pub use volume_tables::MountFault;
