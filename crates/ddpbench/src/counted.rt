// A disk that counts what goes to it.
use vdisk::{Disk, Failed};

/// What was asked of a disk.
#[derive(Clone, Copy)]
pub struct Counts {
    /// Calls that read, write, grow or sync.
    pub calls: u64,
    /// Bytes that were given to writes.
    pub written: u64,
    pub syncs: u64,
    /// Gates of a journal that were opened: one for each group and for each checkpoint.
    pub commits: u64,
}

impl Counts {
    /// Counts a call that reads or grows.
    fn count_call(&mut self) {
        self.calls = self.calls.saturating_add(1);
    }

    /// Counts a write.
    fn count_write(&mut self, bytes: &[u8]) {
        self.count_call();
        self.written = self.written.saturating_add(bytes.len() as u64);
        if opens_gate(bytes) {
            self.commits = self.commits.saturating_add(1);
        }
    }

    /// Counts a sync.
    fn count_sync(&mut self) {
        self.count_call();
        self.syncs = self.syncs.saturating_add(1);
    }
}

/// Whether a write opens a gate of a journal: a commit writes that byte alone, and no other byte 1 is written alone.
fn opens_gate(bytes: &[u8]) -> bool {
    bytes.len() == 1 && bytes[0] == 1
}

/// A disk, and what was asked of it.
#[derive(Drop)]
pub struct Counted<D: Disk> {
    pub disk: D,
    pub counts: Counts,
}

impl<D: Disk> Counted<D> {
    /// A disk of which no call was made yet.
    pub fn new(disk: D) -> Counted<D> {
        let counts = Counts {
            calls: 0,
            written: 0,
            syncs: 0,
            commits: 0,
        };
        Counted { disk, counts }
    }
}

impl<D: Disk> Disk for Counted<D> {
    ghost state = { λ c. D.state c.disk };

    ghost is_same = { λ a b. D.is_same a.disk b.disk };

    ghost same_self = { λ c. D.same_self c.disk };

    ghost same_next = { λ a b c one two. D.same_next a.disk b.disk c.disk one two };

    fn size(&self) -> u64 {
        self.disk.size()
    }

    fn moment(&self) -> u64 {
        self.disk.moment()
    }

    fn grow(&mut self, to: u64) -> Result<(), Failed> {
        self.counts.count_call();
        self.disk.grow(to)
    }

    fn read(&mut self, at: u64, out: &mut [u8]) -> Result<(), Failed> {
        self.counts.count_call();
        self.disk.read(at, out)
    }

    fn write(&mut self, at: u64, bytes: &[u8]) -> Result<(), Failed> {
        self.counts.count_write(bytes);
        self.disk.write(at, bytes)
    }

    fn sync(&mut self) -> Result<(), Failed> {
        self.counts.count_sync();
        self.disk.sync()
    }
}
