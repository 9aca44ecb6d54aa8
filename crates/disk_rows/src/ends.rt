// How the last job of each kind ended.
use crate::kept::{End, end_jobs, fresh, seconds_with};
use crate::memory::{crash, disk_of};
use crate::torn::torn;
use row_files::{Answers, Asked, RowFault};
use std::alloc::Global;
use vdisk::MemoryDisk;
use volume_tables::JobKind;

/// Answers the lines of a row about one volume, which is fresh at first.
pub fn answer(alloc: Global, asked: &[u8], answers: &mut Answers) -> Result<(), RowFault> {
    let mut disk = fresh(alloc)?;
    for line in asked.split(|byte| *byte == b'\n') {
        if !line.is_empty() {
            disk = answer_line(alloc, disk, Asked::new(line), answers)?;
        }
    }
    Ok(())
}

fn answer_line(
    alloc: Global,
    disk: MemoryDisk,
    mut asked: Asked<'_>,
    answers: &mut Answers,
) -> Result<MemoryDisk, RowFault> {
    match asked.word() {
        b"end" => return end(alloc, disk, asked, answers),
        b"crash" => return crashed(alloc, &disk, asked),
        b"tell" => tell(alloc, &disk, asked, answers)?,
        b"torn" => tell_torn(alloc, &disk, asked, answers)?,
        _ => return Err(RowFault::NoQuestion),
    }
    Ok(disk)
}

/// The kind of job that has this number in the tables.
fn kind_of(number: u8) -> Result<JobKind, RowFault> {
    match JobKind::of_number(number) {
        Some(kind) => Ok(kind),
        None => Err(RowFault::NoQuestion),
    }
}

/// Kinds with seconds, up to the end of the line.
fn ends_of(alloc: Global, mut asked: Asked<'_>) -> Result<Vec<End>, RowFault> {
    let mut ends = Vec::new(alloc);
    for _ in 0..asked.rest().len() {
        if asked.rest().is_empty() {
            break;
        }
        let kind = kind_of(asked.byte()?)?;
        let second = asked.number()?;
        ends.push(End { kind, second })?;
    }
    Ok(ends)
}

fn end(
    alloc: Global,
    disk: MemoryDisk,
    asked: Asked<'_>,
    answers: &mut Answers,
) -> Result<MemoryDisk, RowFault> {
    let ends = ends_of(alloc, asked)?;
    let (disk, done) = end_jobs(alloc, disk, &ends);
    answers.line(if done { "ok" } else { "failed" })?;
    Ok(disk)
}

fn crashed(alloc: Global, disk: &MemoryDisk, mut asked: Asked<'_>) -> Result<MemoryDisk, RowFault> {
    let image = crash(disk, asked.number()?)?;
    Ok(disk_of(alloc, image))
}

/// Tells when the last jobs ended, with what the line sets and does not commit.
fn tell(
    alloc: Global,
    disk: &MemoryDisk,
    asked: Asked<'_>,
    answers: &mut Answers,
) -> Result<(), RowFault> {
    let ends = ends_of(alloc, asked)?;
    let Some(seconds) = seconds_with(alloc, crash(disk, 1)?, &ends) else {
        answers.line("refused")?;
        return Ok(());
    };
    for second in &seconds {
        answers.number(*second)?;
    }
    Ok(())
}

/// Tells which images crashes leave where a commit is stopped.
fn tell_torn(
    alloc: Global,
    disk: &MemoryDisk,
    asked: Asked<'_>,
    answers: &mut Answers,
) -> Result<(), RowFault> {
    let held = torn(alloc, disk, &ends_of(alloc, asked)?)?;
    answers.line(if held.old > 0 { "old" } else { "never old" })?;
    answers.line(if held.new > 0 { "new" } else { "never new" })?;
    answers.number(held.other)?;
    Ok(())
}
