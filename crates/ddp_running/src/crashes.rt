// A run is stopped at each call of its disk, and each image that is left is mounted.
use crate::images::{disk_for, fail_from};
use crate::items::items_of;
use crate::plain::Plain;
use crate::rows::Run;
use crate::running::{Ran, Way, disk_of, make_run};
use crate::told::is_as_told;
use ddpsh::Outcome;
use row_files::{RowFault, or_memory};
use std::alloc::{AllocError, Global};
use vdisk::MemoryDisk;

/// The picks of what a crash leaves.
const PICKS: u64 = 16;

/// A run with more calls of the disk is not stopped at each.
const MOST_STOPS: u64 = 400;

/// All at once, as a script comes in and its answers go out.
const WHOLE: Way = Way::Portions(u64::MAX);

/// What a reading tells after each front of a script's calls, the empty one first.
fn fronts_of(alloc: Global, script: &[u8], reading: &[u8]) -> Result<Vec<Vec<u8>>, RowFault> {
    let (calls, reading) = (items_of(alloc, script)?, items_of(alloc, reading)?);
    let mut plain = Plain::new(alloc);
    let mut fronts = Vec::new(alloc);
    fronts.push(plain.told(&reading)?)?;
    for call in &calls {
        plain.step(call)?;
        fronts.push(plain.told(&reading)?)?;
    }
    Ok(fronts)
}

/// What the reading of a run tells after each front of its calls: what the row says, or else a plain volume in memory.
fn fronts_for(alloc: Global, run: &Run) -> Result<Vec<Vec<u8>>, RowFault> {
    if run.fronts.is_empty() {
        return fronts_of(alloc, &run.script, &run.reading);
    }
    let mut fronts = Vec::new(alloc);
    for front in &run.fronts {
        fronts.push(front.as_slice().to_vec(alloc)?)?;
    }
    Ok(fronts)
}

/// How many calls the last acknowledgement holds.
fn acknowledged(outcome: &Outcome) -> u64 {
    let mut calls = 0;
    for k in 0..usize::MAX {
        match outcome.acks.at(k) {
            Some(ack) => calls = ack.calls,
            None => return calls,
        }
    }
    calls
}

/// Is this what is read back after some front of the calls that has at least and at most so many?
fn is_a_front(fronts: &[Vec<u8>], least: u64, most: u64, printed: &[u8]) -> bool {
    for (k, front) in fronts.iter().enumerate() {
        let count = k as u64;
        if least <= count && count <= most && front.as_slice() == printed {
            return true;
        }
    }
    false
}

/// A run over an image that a crash left.
fn read_back(alloc: Global, reading: &Run, left: &MemoryDisk, pick: u64) -> Result<Ran, RowFault> {
    let mut disk = MemoryDisk::with_image(alloc, or_memory(left.crash(pick))?);
    make_run(alloc, reading, WHOLE, &mut disk)
}

/// Is each image that a crash may leave that of a front of the calls? At most one call was made beyond the answers.
fn leaves_a_front(
    alloc: Global,
    reading: &Run,
    fronts: &[Vec<u8>],
    left: &MemoryDisk,
    outcome: &Outcome,
) -> Result<bool, RowFault> {
    let (least, most) = (acknowledged(outcome), outcome.lines.saturating_add(1));
    for pick in 0..PICKS {
        let read = read_back(alloc, reading, left, pick)?;
        if read.outcome.opened.is_none() || !is_a_front(fronts, least, most, &read.printed) {
            return Ok(false);
        }
    }
    Ok(true)
}

/// Is each image that a crash may leave of a run that opened no volume the one that was there before? Where a volume
/// was to be made on a disk with no bytes, it may be refused too.
fn leaves_what_was(
    alloc: Global,
    reading: &Run,
    fronts: &[Vec<u8>],
    left: &MemoryDisk,
    is_made: bool,
) -> Result<bool, RowFault> {
    for pick in 0..PICKS {
        let read = read_back(alloc, reading, left, pick)?;
        let is_refused = is_made && read.outcome.status == 5;
        if !is_refused && !is_a_front(fronts, 0, 0, &read.printed) {
            return Ok(false);
        }
    }
    Ok(true)
}

/// The run that reads back.
fn reading_of(alloc: Global, run: &Run) -> Result<Run, AllocError> {
    let mut reading = Run::new(alloc);
    reading.script.extend_from_slice(&run.reading)?;
    Ok(reading)
}

/// A run whose disk fails from a call on, and that disk.
fn stopped(
    alloc: Global,
    run: &Run,
    image: &[u8],
    stop: u64,
) -> Result<(Ran, MemoryDisk), RowFault> {
    let mut disk = disk_of(alloc, image)?;
    fail_from(&mut disk, stop);
    let ran = make_run(alloc, run, WHOLE, &mut disk)?;
    Ok((ran, disk))
}

/// Is the run that no stop reaches as it is told, with all its calls acknowledged?
fn is_whole(alloc: Global, run: &Run, fronts: &[Vec<u8>], ran: &Ran) -> Result<bool, RowFault> {
    let calls = fronts.len().saturating_sub(1) as u64;
    let is_told = is_as_told(run, &mut Plain::new(alloc), ran)?;
    Ok(is_told && acknowledged(&ran.outcome) == calls)
}

/// Is a run as it is told over the image, which its settings change, and does it survive a stop at each call of its
/// disk? Each image that a crash then leaves holds a front of the calls that has all the acknowledged ones.
pub fn survives(alloc: Global, run: &Run, image: &[u8]) -> Result<bool, RowFault> {
    let fronts = fronts_for(alloc, run)?;
    let reading = reading_of(alloc, run)?;
    let before = disk_for(alloc, run, image)?;
    for stop in 1..MOST_STOPS {
        let (ran, disk) = stopped(alloc, run, before.image(), stop)?;
        let is_well = if ran.outcome.opened.is_some() {
            leaves_a_front(alloc, &reading, &fronts, &disk, &ran.outcome)?
        } else {
            leaves_what_was(alloc, &reading, &fronts, &disk, run.is_blank())?
        };
        if !is_well {
            return Ok(false);
        }
        if ran.outcome.status != 3 {
            return is_whole(alloc, run, &fronts, &ran);
        }
    }
    Ok(false)
}
