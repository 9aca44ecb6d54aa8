//! A durable map from byte strings to byte strings, in two halves of a disk.
//!
//! Changes are staged in memory and made durable by `MetaLog::commit`, all of them or none: behind the last group of
//! the live half where they fit, or else as a checkpoint of the whole map in the other half. A gate byte, written and
//! synced after what stands behind it, says whether that is to be read, so a torn write is never read; the digests
//! find damage that came later.
#![tactic(auto)]

mod append;
mod body;
mod buffers;
mod checkpoint;
pub mod client;
mod commit;
mod data;
mod digest;
mod fault;
mod format;
mod group;
mod half;
mod head;
pub mod laws;
mod limits;
mod log;
mod opening;
mod pieces;
mod record;
mod records;
mod staging;
mod stream;
mod turn_over;

pub use fault::MetaFault;
pub use limits::{CHECKPOINT_HEAD, GROUP_HEAD, LEAST_HALF, MOST_STAGED, RECORD_HEAD};
pub use log::MetaLog;
