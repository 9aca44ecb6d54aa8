// Why rows, bases and cells are refused.

use thiserror::Error;

/// Why a row is not read.
#[derive(Clone, Copy, Debug, PartialEq, Eq, Error)]
pub enum RowFault {
    /// No copy of the row of this id has its digest.
    #[error("no copy of row {0} has its digest")]
    Lost(u64),
    /// The device failed.
    #[error("the device failed")]
    Failed,
}

/// Why the base of a file is not taken.
#[derive(Clone, Copy, Debug, PartialEq, Eq, Error)]
pub enum BaseFault {
    /// Its map breaks the rule of maps.
    #[error("the map of a file breaks its rule")]
    Broken,
    /// The device failed.
    #[error("the device failed")]
    Failed,
}

/// Why cells of the base of a file are not read.
#[derive(Clone, Copy, Debug, PartialEq, Eq, Error)]
pub enum CellFault {
    /// The cell at this place of the file is lost.
    #[error("the cell at {0} is lost")]
    Lost(u64),
    /// The device failed.
    #[error("the device failed")]
    Failed,
}
