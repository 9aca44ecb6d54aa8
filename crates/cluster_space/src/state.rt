// The states of a cluster.

/// The state of a cluster.
#[derive(Clone, Copy, Debug, PartialEq, Eq)]
pub enum State {
    /// It may be taken.
    Free,
    /// It is in use.
    Used,
    /// It is in use no more, and is kept until it is released.
    Deferred,
}
