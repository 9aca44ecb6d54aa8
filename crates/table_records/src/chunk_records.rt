//! The records of the tables of chunks.

/// The row of a chunk, or of the stream map of a base.
#[derive(Clone, Copy, Debug, PartialEq, Eq)]
pub struct Row {
    /// 1 of a chunk, 2 of a map.
    pub kind: u8,
    /// The SHA-256 (FIPS 180-4) of its bytes.
    pub digest: [u8; 32],
    /// In bytes.
    pub length: u32,
    /// The partition of the types of files whose pieces are joined to it; 0 of a map.
    pub partition: u8,
    /// How many pieces were joined to it so far.
    pub seen: u32,
    /// The row whose bytes stand for its own, or 0.
    pub redirect: u64,
}

/// Where a copy of a row lies.
#[derive(Clone, Copy, Debug, PartialEq, Eq)]
pub struct Place {
    /// The id of a container.
    pub container: u64,
    /// In bytes, from the container's first one on.
    pub offset: u32,
}

/// A container, to which chunks are appended.
#[derive(Clone, Copy, Debug, PartialEq, Eq)]
pub struct Container {
    /// 1 of chunks, 2 of maps, 3 of second copies of chunks that many pieces were joined to.
    pub kind: u8,
    /// How many bytes of it, from the first, are written.
    pub used: u32,
}
