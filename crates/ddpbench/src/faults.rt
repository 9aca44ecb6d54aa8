// Why a bench ends early.
use std::alloc::{AllocError, AllocFailed};
use std::io;

/// Why a bench has no figures.
#[derive(Clone, Copy, Debug)]
pub enum BenchFault {
    /// There was no memory.
    Memory,
    /// A call of the system failed.
    System,
    /// A call that is measured was refused.
    Refused,
}

/// What a call gave that is measured.
pub fn or_refused<T, E: Drop>(outcome: Result<T, E>) -> Result<T, BenchFault> {
    match outcome {
        Ok(value) => Ok(value),
        Err(_) => Err(BenchFault::Refused),
    }
}

impl From<AllocError> for BenchFault {
    fn from(_error: AllocError) -> BenchFault {
        BenchFault::Memory
    }
}

impl<T: Drop> From<AllocFailed<T>> for BenchFault {
    fn from(_failed: AllocFailed<T>) -> BenchFault {
        BenchFault::Memory
    }
}

impl From<io::Error> for BenchFault {
    fn from(_error: io::Error) -> BenchFault {
        BenchFault::System
    }
}
