// Images that are changed before a run.
use crate::rows::Run;
use crate::settings::{Outside, Setting};
use meta_log::MetaLog;
use row_files::RowFault;
use std::alloc::Global;
use vdisk::{Disk, MemoryDisk};

/// The bytes of an image of 4,096 clusters.
const IMAGE: u64 = 16_777_216;

/// Where its journal begins, and how long each half of that is.
const JOURNAL: u64 = 4096;

const HALF: u64 = 524_288;

/// Makes so many bytes of an image a byte.
fn fill(image: &mut [u8], at: usize, count: usize, byte: u8) {
    let end = image.len().min(at.saturating_add(count));
    for place in at..end {
        image[place] = byte;
    }
}

/// Changes the bytes of an image.
fn change(image: &mut Vec<u8>, setting: &Setting) {
    match setting {
        Setting::Blank => image.clear(),
        Setting::Short(count) => image.truncate(*count as usize),
        Setting::Fill(at, count, byte) => fill(image, *at as usize, *count as usize, *byte),
        Setting::Flip(at, mask) => {
            if let Some(byte) = image.get_mut(*at as usize) {
                *byte ^= *mask;
            }
        }
        _ => {}
    }
}

/// Opens the journal of an image. It says nothing more, so that no caller reads the contract.
fn opened(alloc: Global, disk: MemoryDisk) -> Result<MetaLog<MemoryDisk>, RowFault> {
    if disk.size() < IMAGE {
        return Err(RowFault::NotMade);
    }
    match MetaLog::open(alloc, disk, JOURNAL, HALF) {
        Ok(log) => Ok(log),
        Err((_disk, _fault)) => Err(RowFault::NotMade),
    }
}

/// Stages a record.
fn stage(log: &mut MetaLog<MemoryDisk>, key: &[u8], value: &[u8]) -> Result<(), RowFault> {
    match log.stage_put(key, value) {
        Ok(()) => Ok(()),
        Err(_fault) => Err(RowFault::NotMade),
    }
}

/// Drops the records from a key on and below another.
fn drop_range(log: &mut MetaLog<MemoryDisk>, from: &[u8], to: &[u8]) -> Result<(), RowFault> {
    match log.stage_drop(from, to) {
        Ok(()) => Ok(()),
        Err(_fault) => Err(RowFault::NotMade),
    }
}

/// Commits what is staged, and hands the disk back.
fn committed(log: MetaLog<MemoryDisk>) -> Result<MemoryDisk, RowFault> {
    let mut log = log;
    if log.is_stopped() || log.commit().is_err() {
        return Err(RowFault::NotMade);
    }
    Ok(log.into_disk())
}

/// A disk with the journal's records of these settings.
fn with_records(
    alloc: Global,
    disk: MemoryDisk,
    settings: &[Setting],
) -> Result<MemoryDisk, RowFault> {
    let mut log = opened(alloc, disk)?;
    for setting in settings {
        match setting {
            Setting::Record(key, value) => stage(&mut log, key, value)?,
            Setting::Dropped(from, to) => drop_range(&mut log, from, to)?,
            _ => {}
        }
    }
    committed(log)
}

/// Does an image have these bytes at a place?
fn is_at(image: &[u8], at: u64, bytes: &[u8]) -> bool {
    match image.get(at as usize..) {
        Some(rest) => rest.starts_with(bytes),
        None => false,
    }
}

/// Does the image that is left hold the bytes that the run's settings name?
pub fn holds(run: &Run, left: &[u8]) -> bool {
    for setting in &run.settings {
        if let Setting::Holds(at, bytes) = setting {
            if !is_at(left, *at, bytes) {
                return false;
            }
        }
    }
    true
}

/// Makes each call of a disk fail, from this one on. It says nothing more, so that no caller reads the contract.
pub fn fail_from(disk: &mut MemoryDisk, call: u64) {
    disk.fail_from(call);
}

/// The disk of a run: the image that is left, as the run's settings change it.
pub fn disk_for(alloc: Global, run: &Run, left: &[u8]) -> Result<MemoryDisk, RowFault> {
    let mut image = left.to_vec(alloc)?;
    let mut has_records = false;
    for setting in &run.settings {
        change(&mut image, setting);
        has_records |= matches!(setting, Setting::Record(_, _) | Setting::Dropped(_, _));
    }
    let mut disk = MemoryDisk::with_image(alloc, image);
    if has_records {
        let written = with_records(alloc, disk, &run.settings)?;
        disk = MemoryDisk::with_image(alloc, written.image().to_vec(alloc)?);
    }
    let call = run.fails_from(Outside::Disk);
    if call > 0 {
        fail_from(&mut disk, call);
    }
    Ok(disk)
}
