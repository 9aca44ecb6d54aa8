// What a disk in memory keeps of each call that changed it: how to take the call back.

/// What a call did.
#[derive(Drop)]
pub enum Change {
    /// A write at a place, over these bytes.
    Wrote(u64, Vec<u8>),
    /// The disk grew, from that many bytes.
    Grew(u64),
    /// All that was written became safe.
    Synced,
}

/// A call, with the moment just before it.
#[derive(Drop)]
pub struct Event {
    pub stamp: u64,
    pub change: Change,
}
