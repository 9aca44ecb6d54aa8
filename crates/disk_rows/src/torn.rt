// A commit that is stopped at each call of its disk.
use crate::kept::{End, end_jobs, seconds_with};
use crate::memory::{crash, disk_of, fail_from};
use row_files::RowFault;
use std::alloc::Global;
use vdisk::MemoryDisk;

/// A commit makes no more calls of the disk than this, its mount's among them.
const MOST_STOPS: u64 = 20;

/// The picks of what a crash leaves.
const PICKS: u64 = 16;

/// How many of the images that crashes leave hold what was there before, what is there afterwards, and anything else.
#[derive(Clone, Copy)]
pub struct Held {
    pub old: u64,
    pub new: u64,
    pub other: u64,
}

impl Held {
    /// Counts an image.
    fn count(&mut self, found: Option<[u64; 4]>, old: Option<[u64; 4]>, new: Option<[u64; 4]>) {
        if found.is_some() && found == old {
            self.old = self.old.saturating_add(1);
        } else if found.is_some() && found == new {
            self.new = self.new.saturating_add(1);
        } else {
            self.other = self.other.saturating_add(1);
        }
    }
}

/// What crashes leave where a commit of these ends is stopped, over this image.
pub fn torn(alloc: Global, disk: &MemoryDisk, ends: &[End]) -> Result<Held, RowFault> {
    let old = seconds_with(alloc, crash(disk, 1)?, &[]);
    let new = seconds_with(alloc, crash(disk, 1)?, ends);
    let mut held = Held {
        old: 0,
        new: 0,
        other: 0,
    };
    for stop in 1..=MOST_STOPS {
        let left = stopped(alloc, crash(disk, 1)?, ends, stop);
        for pick in 0..PICKS {
            held.count(seconds_with(alloc, crash(&left, pick)?, &[]), old, new);
        }
    }
    Ok(held)
}

/// The disk that a commit leaves where each call of it fails from this one on.
fn stopped(alloc: Global, image: Vec<u8>, ends: &[End], stop: u64) -> MemoryDisk {
    let mut disk = disk_of(alloc, image);
    fail_from(&mut disk, stop);
    let (disk, _done) = end_jobs(alloc, disk, ends);
    disk
}
