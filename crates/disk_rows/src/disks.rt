// The calls of a disk.
use row_files::{Answers, Asked, RowFault};
use std::alloc::{AllocError, Global};
use vdisk::{Disk, Failed};

/// Answers a call of a disk by what it gives, or by `failed`.
pub fn answer_call<D: Disk>(
    alloc: Global,
    disk: &mut D,
    mut asked: Asked<'_>,
    answers: &mut Answers,
) -> Result<(), RowFault> {
    match asked.word() {
        b"size" => answers.number(size(disk))?,
        b"moment" => answers.number(moment(disk))?,
        b"sync" => done(answers, sync(disk))?,
        b"grow" => done(answers, grow(disk, asked.number()?))?,
        b"write" => write(alloc, disk, asked, answers)?,
        b"read" => read(alloc, disk, asked, answers)?,
        _ => return Err(RowFault::NoQuestion),
    }
    Ok(())
}

/// Says whether a call succeeded.
pub fn done(answers: &mut Answers, outcome: Result<(), Failed>) -> Result<(), AllocError> {
    answers.line(if outcome.is_ok() { "ok" } else { "failed" })
}

fn size<D: Disk>(disk: &D) -> u64 {
    disk.size()
}

fn moment<D: Disk>(disk: &D) -> u64 {
    disk.moment()
}

fn sync<D: Disk>(disk: &mut D) -> Result<(), Failed> {
    disk.sync()
}

/// Grows where that makes the disk no shorter.
fn grow<D: Disk>(disk: &mut D, to: u64) -> Result<(), Failed> {
    if disk.size() <= to {
        disk.grow(to)
    } else {
        Err(Failed)
    }
}

fn write<D: Disk>(
    alloc: Global,
    disk: &mut D,
    mut asked: Asked<'_>,
    answers: &mut Answers,
) -> Result<(), RowFault> {
    let (at, bytes) = (asked.number()?, asked.bytes(alloc)?);
    Ok(done(answers, write_in(disk, at, &bytes))?)
}

/// Writes where the range lies in the disk.
fn write_in<D: Disk>(disk: &mut D, at: u64, bytes: &[u8]) -> Result<(), Failed> {
    match at.checked_add(bytes.len() as u64) {
        Some(end) if end <= disk.size() => disk.write(at, bytes),
        _ => Err(Failed),
    }
}

fn read<D: Disk>(
    alloc: Global,
    disk: &mut D,
    mut asked: Asked<'_>,
    answers: &mut Answers,
) -> Result<(), RowFault> {
    let (at, count) = (asked.number()?, asked.size()?);
    let mut out = vec![in alloc; 1u8; count]?;
    match read_in(disk, at, &mut out) {
        Ok(()) => answers.digits(&out)?,
        Err(Failed) => answers.line("failed")?,
    }
    Ok(())
}

/// Reads where the range lies in the disk.
fn read_in<D: Disk>(disk: &mut D, at: u64, out: &mut [u8]) -> Result<(), Failed> {
    match at.checked_add(out.len() as u64) {
        Some(end) if end <= disk.size() => disk.read(at, out),
        _ => Err(Failed),
    }
}
