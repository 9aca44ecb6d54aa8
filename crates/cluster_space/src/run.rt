// Clusters beside one another.

/// Clusters beside one another: the first of them, and how many there are.
#[derive(Clone, Copy, Debug)]
pub struct Run {
    pub first: u32,
    pub count: u32,
}
