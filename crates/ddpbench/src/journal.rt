// Puts in a journal over a real file, and opening it again.
ghost use Rattle.std.specs.Prelude.{◌≤◌, ◌<◌, ◌*◌, ◌^◌};

use crate::counted::Counted;
use crate::faults::{BenchFault, or_refused};
use crate::files::clear;
use crate::random::mixed;
use crate::report::{figure, nanos_since, per_second};
use meta_log::{LEAST_HALF, MetaFault, MetaLog};
use std::alloc::Global;
use std::fs::{self, File};
use std::io;
use std::rt::{Clock, Files};
use std::time::Instant;
use vdisk::{Disk, Failed, FileDisk};

/// The file of the journal, in the folder that the bench is started in.
const PATH: &str = "ddpbench-journal.img";

/// A record: five bytes, a key of nine and a value of ten.
const RECORD_BYTES: u64 = 24;

const VALUE: [u8; 10] = [7; 10];

/// The least half of a run.
const LEAST: u64 = 1_048_576;

/// What was measured of a journal.
#[derive(Clone, Copy)]
struct Told {
    /// The bytes that were written to the disk.
    written: u64,
    /// The bytes of a checkpoint of what it holds.
    held: u64,
    /// The ns that it took to open it.
    opening: u64,
}

/// Puts so many records, commits where no more can be staged, and opens the journal again.
pub fn measure(
    rt: &(impl Print + Eprint + Alloc<A = Global> + Clock + Files<File = File>),
    count: u32,
) -> Result<(), BenchFault> {
    clear(rt, PATH);
    let told = put_and_open(rt, disk_of(rt, count)?, count)?;
    tell(rt, count, told)?;
    fs::remove_file(rt, PATH)?;
    Ok(())
}

fn tell(rt: &(impl Print + Eprint), count: u32, told: Told) -> io::Result<()> {
    let staged = u64::from(count) * RECORD_BYTES;
    let (written, held) = (told.written, told.held);
    println!(rt; "journal records {count} staged {staged} written {written} held {held}")?;
    let part = written.saturating_mul(100) / staged.max(1);
    figure(rt, "journal.written_of_staged", part, "percent")?;
    figure(rt, "journal.open", told.opening / 1000, "us")
}

/// Puts the records into a new journal on a disk, and opens that again.
fn put_and_open(
    rt: &(impl Eprint + Alloc<A = Global> + Clock),
    disk: Counted<FileDisk>,
    count: u32,
) -> Result<Told, BenchFault> {
    let disk = put_records(rt, disk, count)?;
    let written = disk.counts.written;
    let (held, opening) = open_again(rt, disk, count)?;
    Ok(Told {
        written,
        held,
        opening,
    })
}

/// Opens the journal on a disk: the bytes of a checkpoint of what it holds, and the ns that it took.
fn open_again<D: Disk + Drop>(
    rt: &(impl Alloc<A = Global> + Clock),
    disk: D,
    count: u32,
) -> Result<(u64, u64), BenchFault> {
    let start = Instant::now(rt)?;
    let log = or_refused(open(rt.alloc(), disk, half_for(count)))?;
    Ok((log.checkpoint_bytes(), nanos_since(rt, start)?))
}

/// A new file that has room for the two halves of so many records.
fn disk_of(rt: &impl Files<File = File>, count: u32) -> Result<Counted<FileDisk>, BenchFault> {
    let mut disk = FileDisk::open(rt, PATH, true);
    or_refused(grow_to(&mut disk, half_for(count).saturating_mul(2)))?;
    Ok(Counted::new(disk))
}

fn grow_to<D: Disk>(disk: &mut D, size: u64) -> Result<(), Failed> {
    if disk.size() <= size {
        disk.grow(size)?;
    }
    Ok(())
}

/// Puts the records into a new journal on a disk, and gives the disk back.
fn put_records<D: Disk + Drop>(
    rt: &(impl Eprint + Alloc<A = Global> + Clock),
    disk: D,
    count: u32,
) -> Result<D, BenchFault> {
    let mut log = or_refused(format(rt.alloc(), disk, half_for(count)))?;
    time_puts(rt, &mut log, count)?;
    Ok(log.into_disk())
}

fn time_puts<D: Disk>(
    rt: &(impl Eprint + Clock),
    log: &mut MetaLog<D>,
    count: u32,
) -> Result<(), BenchFault> {
    let start = Instant::now(rt)?;
    or_refused(put_all(log, count))?;
    per_second(rt, "journal.put", count, start)?;
    Ok(())
}

/// The bytes of a half that takes the records twice.
fn half_for(count: u32) -> u64
    ensures least { LEAST_HALF ≤ result }
    ensures most { result < 2 ^ 32 }
{
    let wanted = u64::from(count) * (2 * RECORD_BYTES);
    wanted.max(LEAST).min(4_000_000_000)
}

fn format<D: Disk + Drop>(alloc: Global, disk: D, half: u64) -> Result<MetaLog<D>, MetaFault>
    requires least { LEAST_HALF ≤ half }
    requires most { half < 2 ^ 32 }
{
    if disk.size() < 2 * half {
        return Err(MetaFault::Failed);
    }
    match MetaLog::format(alloc, disk, 0, half) {
        Ok(log) => Ok(log),
        Err((_disk, fault)) => Err(fault),
    }
}

fn open<D: Disk + Drop>(alloc: Global, disk: D, half: u64) -> Result<MetaLog<D>, MetaFault>
    requires least { LEAST_HALF ≤ half }
    requires most { half < 2 ^ 32 }
{
    if disk.size() < 2 * half {
        return Err(MetaFault::Failed);
    }
    match MetaLog::open(alloc, disk, 0, half) {
        Ok(log) => Ok(log),
        Err((_disk, fault)) => Err(fault),
    }
}

/// Puts the records, and commits the last of them.
fn put_all<D: Disk>(log: &mut MetaLog<D>, count: u32) -> Result<(), MetaFault> {
    for k in 0..count {
        put(log, &key_of(k))?;
    }
    commit(log)
}

/// Stages a record; what was staged is committed first where there is no room for it.
fn put<D: Disk>(log: &mut MetaLog<D>, key: &[u8]) -> Result<(), MetaFault> {
    match stage(log, key) {
        Err(MetaFault::GroupFull) => {
            commit(log)?;
            stage(log, key)
        }
        answer => answer,
    }
}

fn stage<D: Disk>(log: &mut MetaLog<D>, key: &[u8]) -> Result<(), MetaFault> {
    log.stage_put(key, &VALUE)
}

fn commit<D: Disk>(log: &mut MetaLog<D>) -> Result<(), MetaFault> {
    if log.is_stopped() {
        return Err(MetaFault::Failed);
    }
    log.commit()
}

/// A random key of nine bytes.
fn key_of(number: u32) -> [u8; 9] {
    let mut key = [3; 9];
    key[1..].copy_from_slice(&mixed(u64::from(number)).to_be_bytes());
    key
}
