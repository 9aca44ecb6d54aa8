// The standard streams, taken before anything else is opened.
use crate::cause::Cause;
use std::fs::File;
use std::rt::Files;

/// The descriptors of standard input, output and error, each of them taken for as long as this lives.
///
/// A program may be started with any of the three closed, and the system gives what is opened next the lowest number
/// that is free: an image that got one of theirs would be run as the script, or written over by the answers. So each
/// program calls `hold` before it opens anything, and keeps what it gave until its end. A stream that was closed is
/// then the null device, open for reading alone: the input has ended, and every write to output or error fails.
#[derive(Drop)]
pub struct StandardStreams {
    held: [File; 3],
}

impl StandardStreams {
    /// The device that stands in for a stream that is closed.
    pub const STAND_IN: &'static str = "/dev/null";

    /// Takes those of the three that are closed. Where the null device cannot be opened, nothing is kept open, and a
    /// program has to end without opening a file.
    pub fn hold<R: Files<File = File>>(rt: &R) -> Result<StandardStreams, Cause> {
        let first = File::open(rt, StandardStreams::STAND_IN)?;
        let second = File::open(rt, StandardStreams::STAND_IN)?;
        let third = File::open(rt, StandardStreams::STAND_IN)?;
        Ok(StandardStreams {
            held: [first, second, third],
        })
    }
}
