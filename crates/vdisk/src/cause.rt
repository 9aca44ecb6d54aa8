// What the system said of a file.
use std::io::{self, ErrorKind};
use thiserror::Error;

/// What the system said where it refused a call on a file, in the words that a program prints.
#[derive(Clone, Copy, Debug, Error)]
pub enum Cause {
    /// Another open of the file has its lock, in another program or in this one.
    #[error("held by another program")]
    Held,
    #[error("no such file")]
    NoSuchFile,
    #[error("permission denied")]
    PermissionDenied,
    #[error("is a directory")]
    IsDirectory,
    #[error("no space left")]
    NoSpaceLeft,
    /// Anything else, in the words of the system.
    #[error("{0}")]
    Other(io::Error),
}

impl From<io::Error> for Cause {
    fn from(error: io::Error) -> Cause {
        match error.kind() {
            ErrorKind::WouldBlock => Cause::Held,
            ErrorKind::NotFound => Cause::NoSuchFile,
            ErrorKind::PermissionDenied => Cause::PermissionDenied,
            ErrorKind::IsADirectory => Cause::IsDirectory,
            ErrorKind::StorageFull => Cause::NoSpaceLeft,
            _ => Cause::Other(error),
        }
    }
}
