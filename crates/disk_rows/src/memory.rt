// A disk in memory, and what a crash leaves of it.
use crate::disks::answer_call;
use row_files::{Answers, Asked, RowFault, or_memory};
use std::alloc::Global;
use vdisk::MemoryDisk;

/// Answers the lines of a row about one disk, which is empty until a line makes another.
pub fn answer(alloc: Global, asked: &[u8], answers: &mut Answers) -> Result<(), RowFault> {
    let mut disk = disk_of_zeros(alloc, 0)?;
    for line in asked.split(|byte| *byte == b'\n') {
        if !line.is_empty() {
            answer_line(alloc, &mut disk, Asked::new(line), answers)?;
        }
    }
    Ok(())
}

fn answer_line(
    alloc: Global,
    disk: &mut MemoryDisk,
    asked: Asked<'_>,
    answers: &mut Answers,
) -> Result<(), RowFault> {
    let mut words = asked;
    match words.word() {
        b"zeros" => *disk = disk_of_zeros(alloc, words.number()?)?,
        b"bytes" => *disk = with_image(alloc, words)?,
        b"fail-at" => fail_at(disk, numbers(alloc, words)?),
        b"fail-from" => fail_from(disk, words.number()?),
        b"image" => answers.digits(disk.image())?,
        b"crash" => answers.digits(&crash(disk, words.number()?)?)?,
        _ => answer_call(alloc, disk, asked, answers)?,
    }
    Ok(())
}

/// A disk of zeros.
pub fn disk_of_zeros(alloc: Global, size: u64) -> Result<MemoryDisk, RowFault> {
    or_memory(MemoryDisk::new(alloc, size))
}

/// A disk with this image.
pub fn disk_of(alloc: Global, image: Vec<u8>) -> MemoryDisk {
    MemoryDisk::with_image(alloc, image)
}

fn with_image(alloc: Global, mut asked: Asked<'_>) -> Result<MemoryDisk, RowFault> {
    Ok(disk_of(alloc, asked.bytes(alloc)?))
}

fn fail_at(disk: &mut MemoryDisk, calls: Vec<u64>) {
    disk.fail_at(calls);
}

/// Makes each call of a disk fail, from this one on.
pub fn fail_from(disk: &mut MemoryDisk, call: u64) {
    disk.fail_from(call);
}

/// What a crash leaves of a disk.
pub fn crash(disk: &MemoryDisk, pick: u64) -> Result<Vec<u8>, RowFault> {
    or_memory(disk.crash(pick))
}

/// The numbers up to the end of the line.
pub fn numbers(alloc: Global, mut asked: Asked<'_>) -> Result<Vec<u64>, RowFault> {
    let mut numbers = Vec::new(alloc);
    for _ in 0..asked.rest().len() {
        match asked.some_number() {
            Some(number) => numbers.push(number)?,
            None => break,
        }
    }
    Ok(numbers)
}
