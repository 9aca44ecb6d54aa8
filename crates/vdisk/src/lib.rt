//! The outside of a volume: a disk that may crash, a source of bytes, a sink for them and a clock, each of which may
//! fail, with forms of them in memory that tell all that they hold.
#![tactic(auto)]

mod cause;
mod crash;
mod disk;
mod faults;
mod file_disk;
pub mod laws;
mod memory_disk;
mod memory_streams;
mod record;
mod standard_streams;
mod std_streams;
mod streams;
mod synced;
mod writes;

pub use cause::Cause;
pub use disk::{Disk, Failed};
pub use file_disk::FileDisk;
pub use groundwork::Memory;
pub use memory_disk::MemoryDisk;
pub use memory_streams::{MemoryClock, MemorySink, MemorySource};
pub use standard_streams::StandardStreams;
pub use std_streams::{ReaderSource, SystemClock, WriterSink};
pub use streams::{Clock, Sink, Source};
pub use synced::write_synced;
