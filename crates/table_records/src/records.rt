//! The records of the tables.

/// The volume's own record.
#[derive(Clone, Copy, Debug, PartialEq, Eq)]
pub struct VolumeRecord {
    /// The version of the formats.
    pub version: u32,
    /// The least id that was never drawn. Files, rows and containers draw from it.
    pub next_id: u64,
}

/// A file.
#[derive(Clone, Copy, Debug, PartialEq, Eq)]
pub struct FileRecord {
    /// In bytes.
    pub length: u64,
    /// The row of the map of its base, or 0 where it has none.
    pub map_row: u64,
    /// How many bytes of it, from the first, its base covers.
    pub covers: u64,
}

/// The cluster that holds a block of a file.
#[derive(Clone, Copy, Debug, PartialEq, Eq)]
pub struct Extent {
    pub cluster: u32,
    /// How many bytes of the cluster, from the first, are the file's; behind them its block is zero.
    pub valid: u16,
}

/// The end of the last job of a kind.
#[derive(Clone, Copy, Debug, PartialEq, Eq)]
pub struct ResultRecord {
    /// In seconds; 0 where no job of this kind has ended.
    pub second: u64,
    /// The number of its [`JobResult`](crate::JobResult).
    pub result: u8,
}
