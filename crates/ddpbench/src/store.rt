// Files stored through the program over a real file, beside a plain copy of their bytes, and written anew.
use crate::counted::{Counted, Counts};
use crate::faults::{BenchFault, or_refused};
use crate::files::clear;
use crate::memory::most_resident;
use crate::report::{figure, nanos_since, per_mebibyte, portion, rate};
use crate::scripts::{FILE_BYTES, ingest_script, read_script, rewrite_script};
use crate::served::{Served, time_over};
use cmdlet_line::{Memory, Words};
use std::alloc::Global;
use std::fs::{self, File};
use std::io::{self, Read, Write};
use std::rt::{Clock as SystemTime, Files};
use std::time::Instant;
use vdisk::{Disk, FileDisk, MemorySink, MemorySource, Sink, Source, WriterSink};

/// The image, and the copy, in the folder that the bench is started in.
const IMAGE: &str = "ddpbench-store.img";

const COPY: &str = "ddpbench-store.copy";

/// What is written here is gone.
const NOWHERE: &str = "/dev/null";

/// The fewest and the most clusters of an image.
const LEAST_CLUSTERS: u64 = ddpsh::LEAST_CLUSTERS as u64;

const MOST_CLUSTERS: u64 = ddpsh::MOST_CLUSTERS as u64;

/// The clusters beside those of the files: what is written anew between two flushes finds room in them.
const SPARE_CLUSTERS: u64 = 4352;

/// What a run of the program over the image came to, and what it asked of the disk.
#[derive(Clone, Copy)]
struct Stored {
    served: Served,
    counts: Counts,
}

/// The names of the figures of a run.
#[derive(Clone, Copy)]
struct Names {
    run: &'static str,
    rate: &'static str,
    calls: &'static str,
    commits: &'static str,
    syncs: &'static str,
}

const INGEST: Names = Names {
    run: "files",
    rate: "store.ingest",
    calls: "store.calls",
    commits: "store.commits",
    syncs: "store.syncs",
};

const REWRITE: Names = Names {
    run: "anew",
    rate: "store.rewrite",
    calls: "store.rewrite.calls",
    commits: "store.rewrite.commits",
    syncs: "store.rewrite.syncs",
};

/// Stores `size` files of a MiB each with one flush at the end, copies the same bytes into another file with one sync,
/// mounts the image again, reads the files and the copy back, and writes a MiB of each file anew. The time of a run has
/// its format or mount in it, but for that of the reads.
pub fn measure(
    rt: &(impl Print + Eprint + Alloc<A = Global> + SystemTime + Files<File = File>),
    size: u32,
) -> Result<(), BenchFault> {
    clear(rt, IMAGE);
    copy_and_ingest(rt, size)?;
    let mounted = mount(rt)?;
    read_copy(rt, size)?;
    read_back(rt, size, mounted)?;
    rewrite(rt, size)?;
    fs::remove_file(rt, IMAGE)?;
    fs::remove_file(rt, COPY)?;
    Ok(())
}

fn copy_and_ingest(
    rt: &(impl Print + Eprint + Alloc<A = Global> + SystemTime + Files<File = File>),
    size: u32,
) -> Result<(), BenchFault> {
    let script = ingest_script(rt.alloc(), size)?;
    copy(rt, &script, size)?;
    ingest(rt, script, size)
}

/// Copies the bytes of so many files to a file of their own, and syncs it.
fn copy(
    rt: &(impl Eprint + SystemTime + Files<File = File>),
    script: &[u8],
    size: u32,
) -> Result<(), BenchFault> {
    let start = Instant::now(rt)?;
    write_copy(rt, script)?;
    let nanos = nanos_since(rt, start)?;
    rate(rt, "store.copy", bytes_of(size), nanos)?;
    Ok(())
}

fn write_copy(rt: &impl Files<File = File>, bytes: &[u8]) -> io::Result<()> {
    let mut file = File::create(rt, COPY)?;
    for piece in bytes.chunks(FILE_BYTES as usize) {
        file.write_all(piece)?;
    }
    file.sync_all()
}

/// Stores the files in a new image, and tells the memory that it took too.
fn ingest(
    rt: &(impl Print + Eprint + Alloc<A = Global> + SystemTime + Files<File = File>),
    script: Vec<u8>,
    size: u32,
) -> Result<(), BenchFault> {
    let before = most_resident(rt)?;
    let stored = serve(rt, format_words(rt.alloc(), size)?, script)?;
    let memory = most_resident(rt)?.saturating_sub(before);
    tell(rt, INGEST, size, stored)?;
    per_mebibyte(rt, "store.memory", memory, size, "KiB/MiB")?;
    Ok(())
}

/// Mounts the image for a script with no line, and tells the ns that it takes.
fn mount(
    rt: &(impl Print + Eprint + Alloc<A = Global> + SystemTime + Files<File = File>),
) -> Result<u64, BenchFault> {
    let words = mount_words(rt.alloc())?;
    let served = serve(rt, words, Vec::new(rt.alloc()))?.served;
    println!(rt; "store mounted {}", served.status)?;
    figure(rt, "store.mount", served.nanos / 1000, "us")?;
    Ok(served.nanos)
}

/// Reads the copy, in pieces of a MiB.
fn read_copy(
    rt: &(impl Eprint + Alloc<A = Global> + SystemTime + Files<File = File>),
    size: u32,
) -> Result<(), BenchFault> {
    let mut piece = vec![in rt.alloc(); 0u8; FILE_BYTES as usize]?;
    let start = Instant::now(rt)?;
    read_pieces(rt, size, &mut piece)?;
    let nanos = nanos_since(rt, start)?;
    rate(rt, "store.copy_read", bytes_of(size), nanos)?;
    Ok(())
}

fn read_pieces(rt: &impl Files<File = File>, size: u32, piece: &mut [u8]) -> io::Result<()> {
    let mut file = File::open(rt, COPY)?;
    for _ in 0..size {
        file.read_exact(piece)?;
    }
    Ok(())
}

/// Reads the files from the image, a MiB an answer, which go nowhere. The time is told without that of a mount.
fn read_back(
    rt: &(impl Print + Eprint + Alloc<A = Global> + SystemTime + Files<File = File>),
    size: u32,
    mounted: u64,
) -> Result<(), BenchFault> {
    let words = mount_words(rt.alloc())?;
    let script = MemorySource::new(read_script(rt.alloc(), size)?);
    let sink = WriterSink::new(File::create(rt, NOWHERE)?);
    let served = serve_to(rt, &words, script, sink)?;
    println!(rt;
        "store read {size} lines {} status {}",
        served.lines, served.status
    )?;
    rate(
        rt,
        "store.read",
        bytes_of(size),
        served.nanos.saturating_sub(mounted),
    )?;
    Ok(())
}

/// Serves a script over the image, to a sink.
fn serve_to<S: Source + Drop, K: Sink + Drop>(
    rt: &(impl Alloc<A = Global> + SystemTime + Files<File = File>),
    words: &Words,
    mut script: S,
    mut sink: K,
) -> io::Result<Served> {
    let mut disk = FileDisk::open(rt, IMAGE, true);
    time_over(rt, words, &mut script, &mut sink, &mut disk)
}

/// Writes the files anew.
fn rewrite(
    rt: &(impl Print + Eprint + Alloc<A = Global> + SystemTime + Files<File = File>),
    size: u32,
) -> Result<(), BenchFault> {
    let script = rewrite_script(rt.alloc(), size)?;
    let words = mount_words(rt.alloc())?;
    let stored = serve(rt, words, script)?;
    tell(rt, REWRITE, size, stored)?;
    Ok(())
}

/// Tells what a run that wrote so many MiB came to.
fn tell(rt: &(impl Print + Eprint), names: Names, size: u32, stored: Stored) -> io::Result<()> {
    let counts = stored.counts;
    tell_counts(rt, names.run, size, stored)?;
    rate(rt, names.rate, bytes_of(size), stored.served.nanos)?;
    per_mebibyte(rt, names.calls, counts.calls, size, "calls/MiB")?;
    portion(
        rt,
        names.commits,
        counts.commits,
        u64::from(size),
        "commits/MiB",
    )?;
    portion(rt, names.syncs, counts.syncs, u64::from(size), "syncs/MiB")
}

fn tell_counts(rt: &impl Print, run: &str, size: u32, stored: Stored) -> io::Result<()> {
    let (served, counts) = (stored.served, stored.counts);
    println!(rt;
        "store {run} {size} lines {} status {} calls {} written {} commits {} syncs {}",
        served.lines, served.status, counts.calls, counts.written, counts.commits, counts.syncs
    )
}

/// The bytes of so many files.
fn bytes_of(size: u32) -> u64 {
    u64::from(size) * FILE_BYTES
}

/// Serves a script over the image.
fn serve(
    rt: &(impl Alloc<A = Global> + SystemTime + Files<File = File>),
    words: Words,
    script: Vec<u8>,
) -> io::Result<Stored> {
    let mut disk = Counted::new(FileDisk::open(rt, IMAGE, true));
    let served = serve_over(rt, &words, MemorySource::new(script), &mut disk)?;
    let counts = disk.counts;
    Ok(Stored { served, counts })
}

fn serve_over<S: Source + Drop, D: Disk>(
    rt: &(impl Alloc<A = Global> + SystemTime),
    words: &Words,
    mut script: S,
    disk: &mut D,
) -> io::Result<Served> {
    let mut out = MemorySink::new(rt.alloc());
    time_over(rt, words, &mut script, &mut out, disk)
}

/// The words that format an image with room for so many files of a MiB.
fn format_words(alloc: Global, size: u32) -> Result<Words, BenchFault> {
    let clusters = clusters_for(size);
    let clusters = format!(in alloc; "{clusters}")?;
    or_refused(words_with(alloc, &["--format", &clusters]))
}

/// The words that name the image, and these.
fn words_with(alloc: Global, more: &[&str]) -> Result<Words, Memory> {
    let mut words = Words::new(alloc);
    words.push(IMAGE)?;
    for word in more {
        words.push(word)?;
    }
    Ok(words)
}

/// The clusters of an image with room for so many files of a MiB.
fn clusters_for(size: u32) -> u64 {
    let data = u64::from(size) * 257 + SPARE_CLUSTERS;
    let clusters = data + data / 15 + 64;
    clusters.max(LEAST_CLUSTERS).min(MOST_CLUSTERS)
}

/// The words that mount the image.
fn mount_words(alloc: Global) -> Result<Words, BenchFault> {
    or_refused(words_with(alloc, &[]))
}
