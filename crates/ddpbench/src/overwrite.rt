// Random overwrites in a large and in a small file of one volume over a real file.
use crate::calls::{create, flush, format, write};
use crate::counted::{Counted, Counts};
use crate::faults::BenchFault;
use crate::files::clear;
use crate::random::{add_random, mixed};
use crate::report::{nanos_since, portion};
use crate::scripts::{BLOCK_BYTES, FILE_BYTES, PART_BYTES};
use std::alloc::{AllocError, Global};
use std::fs::{self, File};
use std::io;
use std::rt::{Clock, Files};
use std::time::Instant;
use vdisk::{Disk, FileDisk};
use volume_core::Volume;

/// The image, in the folder that the bench is started in.
const PATH: &str = "ddpbench-overwrite.img";

/// The clusters of the image: 1,152 MiB, of which more than 14,000 data clusters stay free.
const CLUSTERS: u32 = 294_912;

/// The seed of the bytes that are written.
const SEED: u64 = 0x9e37_79b9_7f4a_7c15;

/// A file of the volume: its name, and the MiB that it has.
#[derive(Clone, Copy)]
struct Target {
    name: &'static [u8],
    mebibytes: u32,
}

/// The longest file that a volume holds.
const LARGE: Target = Target {
    name: b"large",
    mebibytes: 1024,
};

const SMALL: Target = Target {
    name: b"small",
    mebibytes: 1,
};

/// How many us the overwrites of each file took.
#[derive(Clone, Copy)]
struct Times {
    large: u64,
    small: u64,
}

/// The same of blocks, and of parts of 64 KiB.
#[derive(Clone, Copy)]
struct AllTimes {
    blocks: Times,
    parts: Times,
}

/// The names of the figures of overwrites.
#[derive(Clone, Copy)]
struct Names {
    large: &'static str,
    small: &'static str,
    ratio: &'static str,
}

const BLOCKS: Names = Names {
    large: "overwrite.large",
    small: "overwrite.small",
    ratio: "overwrite.ratio",
};

const PARTS: Names = Names {
    large: "overwrite.parts.large",
    small: "overwrite.parts.small",
    ratio: "overwrite.parts.ratio",
};

/// Fills a file of 1 GiB and one of 1 MiB in one volume, so that its tables hold an extent for each of their 262,144
/// and 256 blocks, and flushes. Then it overwrites `count` blocks of the large file, drawn at random, and flushes, and
/// does the same with the small one, and then with parts of 64 KiB. The time of each has its flush in it.
pub fn measure(
    rt: &(impl Print + Eprint + Alloc<A = Global> + Clock + Files<File = File>),
    count: u32,
) -> Result<(), BenchFault> {
    clear(rt, PATH);
    let disk = Counted::new(FileDisk::open(rt, PATH, true));
    let (times, counts) = fill_and_overwrite(rt, disk, count)?;
    tell_counts(rt, count, counts)?;
    tell_times(rt, BLOCKS, count, times.blocks)?;
    tell_times(rt, PARTS, count, times.parts)?;
    fs::remove_file(rt, PATH)?;
    Ok(())
}

/// Makes a volume on a disk, fills both files, and overwrites so many blocks and parts of each.
fn fill_and_overwrite(
    rt: &(impl Alloc<A = Global> + Clock),
    disk: Counted<FileDisk>,
    count: u32,
) -> Result<(AllTimes, Counts), BenchFault> {
    let mut volume = format(rt.alloc(), disk, CLUSTERS)?;
    fill_both(rt, &mut volume)?;
    let blocks = overwrite_both(rt, &mut volume, BLOCK_BYTES, count)?;
    let parts = overwrite_both(rt, &mut volume, PART_BYTES, count)?;
    Ok((AllTimes { blocks, parts }, volume.into_disk().counts))
}

fn tell_counts(rt: &impl Print, count: u32, counts: Counts) -> io::Result<()> {
    println!(rt;
        "overwrite count {count} calls {} written {} commits {} syncs {}",
        counts.calls, counts.written, counts.commits, counts.syncs
    )
}

fn tell_times(rt: &impl Eprint, names: Names, count: u32, times: Times) -> io::Result<()> {
    let count = u64::from(count);
    portion(rt, names.large, times.large, count, "us")?;
    portion(rt, names.small, times.small, count, "us")?;
    portion(rt, names.ratio, times.large, times.small, "large/small")
}

fn fill_both<D: Disk>(
    rt: &impl Alloc<A = Global>,
    volume: &mut Volume<D>,
) -> Result<(), BenchFault> {
    let bytes = random_bytes(rt.alloc(), FILE_BYTES)?;
    fill(volume, LARGE, &bytes)?;
    fill(volume, SMALL, &bytes)
}

/// Overwrites so many pieces of each file, of so many bytes.
fn overwrite_both<D: Disk>(
    rt: &(impl Alloc<A = Global> + Clock),
    volume: &mut Volume<D>,
    bytes: u64,
    count: u32,
) -> Result<Times, BenchFault> {
    let block = random_bytes(rt.alloc(), bytes)?;
    let large = time_overwrite(rt, volume, LARGE, &block, count)?;
    let small = time_overwrite(rt, volume, SMALL, &block, count)?;
    Ok(Times { large, small })
}

fn random_bytes(alloc: Global, count: u64) -> Result<Vec<u8>, AllocError> {
    let mut bytes = Vec::new(alloc);
    add_random(&mut bytes, SEED, (count / 8) as usize)?;
    Ok(bytes)
}

/// Creates a file, writes these bytes to each of its MiB, and flushes.
fn fill<D: Disk>(volume: &mut Volume<D>, file: Target, bytes: &[u8]) -> Result<(), BenchFault> {
    done(create(volume, file.name))?;
    for k in 0..file.mebibytes {
        write_at(volume, file, u64::from(k) * FILE_BYTES, bytes)?;
    }
    flush_all(volume)
}

/// The us that it takes to overwrite so many pieces of a file, and to flush.
fn time_overwrite<D: Disk>(
    rt: &impl Clock,
    volume: &mut Volume<D>,
    file: Target,
    block: &[u8],
    count: u32,
) -> Result<u64, BenchFault> {
    let start = Instant::now(rt)?;
    overwrite(volume, file, block, count)?;
    let nanos = nanos_since(rt, start)?;
    Ok(nanos / 1000)
}

/// Overwrites so many pieces of a file, drawn at random, and flushes.
fn overwrite<D: Disk>(
    volume: &mut Volume<D>,
    file: Target,
    block: &[u8],
    count: u32,
) -> Result<(), BenchFault> {
    for k in 0..count {
        write_at(volume, file, place_of(file, k, block.len() as u64), block)?;
    }
    flush_all(volume)
}

fn write_at<D: Disk>(
    volume: &mut Volume<D>,
    file: Target,
    at: u64,
    bytes: &[u8],
) -> Result<(), BenchFault> {
    done(write(volume, file.name, at, bytes))
}

fn flush_all<D: Disk>(volume: &mut Volume<D>) -> Result<(), BenchFault> {
    done(flush(volume))
}

/// Goes on only where a call was done.
fn done(is_done: bool) -> Result<(), BenchFault> {
    if is_done {
        Ok(())
    } else {
        Err(BenchFault::Refused)
    }
}

/// Where a piece of so many bytes of a file begins, at a block that is drawn by a number.
fn place_of(file: Target, number: u32, bytes: u64) -> u64 {
    let length = u64::from(file.mebibytes) * FILE_BYTES;
    let beginnings = length.saturating_sub(bytes) / BLOCK_BYTES + 1;
    let block = mixed(u64::from(number)) % beginnings;
    block.saturating_mul(BLOCK_BYTES)
}
