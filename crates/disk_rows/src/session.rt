// What the steps of a row are made on.
use crate::memory::disk_of;
use meta_log::{MetaFault, MetaLog};
use row_files::{Answers, RowFault};
use std::alloc::Global;
use std::mem;
use vdisk::MemoryDisk;

/// A disk, and what stands open on it.
#[derive(Drop)]
pub enum Held {
    Disk(MemoryDisk),
    Journal(MetaLog<MemoryDisk>),
}

/// What the steps of a row are made on.
#[derive(Drop)]
pub struct Session {
    pub alloc: Global,
    pub held: Held,
    /// The call from which on a watched disk fails; 0 for none.
    pub stop: u64,
    /// Whether a step was refused because the disk failed.
    pub has_failed: bool,
}

impl Session {
    /// A session on a disk with this image.
    pub fn new(alloc: Global, image: Vec<u8>, stop: u64) -> Session {
        Session {
            alloc,
            held: Held::Disk(disk_of(alloc, image)),
            stop,
            has_failed: false,
        }
    }

    /// Takes the disk out. What stands open on it is closed, and what is staged is lost.
    pub fn take_disk(&mut self) -> MemoryDisk {
        let none = disk_of(self.alloc, Vec::new(self.alloc));
        match mem::replace(&mut self.held, Held::Disk(none)) {
            Held::Disk(disk) => disk,
            Held::Journal(log) => log.into_disk(),
        }
    }

    /// Tells why the journal refused a call, if it did.
    pub fn tell(
        &mut self,
        fault: Option<MetaFault>,
        answers: &mut Answers,
    ) -> Result<(), RowFault> {
        if let Some(fault) = fault {
            self.has_failed = self.has_failed || fault == MetaFault::Failed;
            answers.line(&format!(in self.alloc; "refused {fault:?}")?)?;
        }
        Ok(())
    }
}
