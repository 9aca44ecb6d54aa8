// Calls of the journal, of which nothing is said, so that no step reads their contracts.
use crate::session::Held;
use meta_log::{MetaFault, MetaLog};
use row_files::{Answers, RowFault};
use std::alloc::{AllocError, Global};
use vdisk::{Disk, MemoryDisk};

/// A journal over a disk in memory.
pub type Log = MetaLog<MemoryDisk>;

/// What a call leaves, and why it was refused, if it was.
pub type Answered = (Held, Option<MetaFault>);

/// Makes a journal, whose two halves of so many bytes stand from a place on.
pub fn format(alloc: Global, disk: MemoryDisk, at: u64, half: u64) -> Result<Answered, RowFault> {
    let is_short = half < 4_294_967_296 && at < 4_294_967_296;
    if !(is_short && 45 <= half && at + 2 * half <= disk.size()) {
        return Err(RowFault::NoQuestion);
    }
    Ok(match MetaLog::format(alloc, disk, at, half) {
        Ok(log) => (Held::Journal(log), None),
        Err((disk, fault)) => (Held::Disk(disk), Some(fault)),
    })
}

/// Opens a journal.
pub fn open(alloc: Global, disk: MemoryDisk, at: u64, half: u64) -> Result<Answered, RowFault> {
    let is_short = half < 4_294_967_296 && at < 4_294_967_296;
    if !(is_short && 45 <= half && at + 2 * half <= disk.size()) {
        return Err(RowFault::NoQuestion);
    }
    Ok(match MetaLog::open(alloc, disk, at, half) {
        Ok(log) => (Held::Journal(log), None),
        Err((disk, fault)) => (Held::Disk(disk), Some(fault)),
    })
}

pub fn put(log: &mut Log, key: &[u8], value: &[u8]) -> Option<MetaFault> {
    log.stage_put(key, value).err()
}

pub fn drop_range(log: &mut Log, from: &[u8], to: &[u8]) -> Option<MetaFault> {
    log.stage_drop(from, to).err()
}

pub fn commit(log: &mut Log) -> Option<MetaFault> {
    if log.is_stopped() {
        return Some(MetaFault::Failed);
    }
    log.commit().err()
}

/// How many bytes are staged, and how many a checkpoint would have.
pub fn counts(log: &Log) -> (usize, u64) {
    (log.staged_bytes(), log.checkpoint_bytes())
}

/// Tells the value of a key.
pub fn tell_value(log: &Log, key: &[u8], answers: &mut Answers) -> Result<(), AllocError> {
    match log.get(key) {
        Some(value) => answers.part_shown(value)?,
        None => answers.part(b"none")?,
    }
    answers.line("")
}

/// Tells the pair behind a key, and leaves its key.
fn tell_next(log: &Log, key: &mut Vec<u8>, answers: &mut Answers) -> Result<(), AllocError> {
    let Some((next, value)) = log.next(key) else {
        return Ok(());
    };
    answers.part_shown(next)?;
    answers.part(b" ")?;
    answers.part_shown(value)?;
    key.clear();
    key.extend_from_slice(next)?;
    answers.line("")
}

/// Tells the pairs with a key that is not empty, one a line.
pub fn tell_map(alloc: Global, log: &Log, answers: &mut Answers) -> Result<(), AllocError> {
    let mut key = Vec::new(alloc);
    for _ in 0..log.pairs().count() {
        tell_next(log, &mut key, answers)?;
    }
    Ok(())
}

/// Writes bytes of a disk outside the halves of a new journal, and answers with what is read back.
pub fn data(
    alloc: Global,
    disk: MemoryDisk,
    halves: (u64, u64),
    place: u64,
    bytes: &[u8],
) -> Result<Vec<u8>, RowFault> {
    let (at, half) = halves;
    let is_short = half < 4_294_967_296 && at < 4_294_967_296 && place < 4_294_967_296;
    if !(is_short && 45 <= half && at + 2 * half <= disk.size()) {
        return Err(RowFault::NoQuestion);
    }
    let count = bytes.len() as u64;
    if count > 4096 || place + count > disk.size() {
        return Err(RowFault::NoQuestion);
    }
    if place < at + 2 * half && at < place + count {
        return Err(RowFault::NoQuestion);
    }
    let Ok(mut log) = MetaLog::format(alloc, disk, at, half) else {
        return Err(RowFault::NotMade);
    };
    let mut read = vec![in alloc; 0u8; bytes.len()]?;
    if log.write_data(place, bytes).is_err() || log.read_data(place, &mut read).is_err() {
        return Err(RowFault::NotMade);
    }
    Ok(read)
}
