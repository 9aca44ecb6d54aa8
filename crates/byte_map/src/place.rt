//! Places in a list of blocks.

/// A block, by its number, and an index in it.
#[derive(Clone, Copy)]
pub struct Place {
    pub block: usize,
    pub index: usize,
}
