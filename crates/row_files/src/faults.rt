// Why rows cannot be run.
use std::alloc::{AllocError, AllocFailed};
use std::error::Error;
use std::{fmt, io};

/// Why a file of rows was not run to its end. A row that differs is none of these: it is told.
#[derive(Clone, Copy, Debug)]
pub enum RowFault {
    /// There was no memory.
    Memory,
    /// A file could not be read, or nothing could be printed.
    System,
    /// The line of this number has no mark of a row, or is spelt wrong.
    BadLine(u64),
    /// The last row has no end.
    NoEnd,
    /// No table has this name.
    NoTable,
    /// A line asks nothing that can be answered, or is spelt wrong.
    NoQuestion,
    /// What a row needs before it is asked could not be made.
    NotMade,
}

impl fmt::Display for RowFault {
    fn fmt<W: fmt::Write>(&self, f: &mut fmt::Formatter<W>) -> fmt::Result {
        match self {
            RowFault::Memory => write!(f, "no memory"),
            RowFault::System => write!(f, "a file is not read, or nothing is printed"),
            RowFault::BadLine(number) => write!(f, "line {number} is none of a row"),
            RowFault::NoEnd => write!(f, "the last row has no end"),
            RowFault::NoTable => write!(f, "no table has this name"),
            RowFault::NoQuestion => write!(f, "no such question"),
            RowFault::NotMade => write!(f, "what a row needs is not made"),
        }
    }
}

impl Error for RowFault {}

/// What a call gave of which the one fault is that there was no memory.
pub fn or_memory<T, E: Drop>(outcome: Result<T, E>) -> Result<T, RowFault> {
    match outcome {
        Ok(value) => Ok(value),
        Err(_) => Err(RowFault::Memory),
    }
}

impl From<AllocError> for RowFault {
    fn from(_error: AllocError) -> RowFault {
        RowFault::Memory
    }
}

impl<T: Drop> From<AllocFailed<T>> for RowFault {
    fn from(_failed: AllocFailed<T>) -> RowFault {
        RowFault::Memory
    }
}

impl From<io::Error> for RowFault {
    fn from(_error: io::Error) -> RowFault {
        RowFault::System
    }
}
