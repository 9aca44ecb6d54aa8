// The path of a script: lines and payloads in, answers out.
use crate::faults::{BenchFault, or_refused};
use crate::report::{nanos_since, rate};
use crate::scripts::{FILE_BYTES, add_payload};
use crate::served::{Served, time_over};
use cmdlet_line::Words;
use std::alloc::{AllocError, Global};
use std::io;
use std::rt::Clock as SystemTime;
use std::time::Instant;
use vdisk::{Failed, MemoryDisk, MemorySink, MemorySource, Sink, Source};

/// The bytes of one piece of a copy.
const COPY: usize = 65_536;

/// Serves a script that writes `size` MiB to one file and reads them back, and copies the same script from a source to
/// a sink for comparison.
pub fn measure(
    rt: &(impl Print + Eprint + Alloc<A = Global> + SystemTime),
    size: u32,
) -> Result<(), BenchFault> {
    let script = script_of(rt.alloc(), size)?;
    copy_whole(rt, script.clone()?)?;
    serve_whole(rt, script)
}

/// Copies a script from a source to a sink.
fn copy_whole(
    rt: &(impl Eprint + Alloc<A = Global> + SystemTime),
    script: Vec<u8>,
) -> Result<(), BenchFault> {
    let came = script.len() as u64;
    let sink = MemorySink::new(rt.alloc());
    let nanos = time_copy(rt, MemorySource::new(script), sink)?;
    rate(rt, "lines.copy", came.saturating_add(came), nanos)?;
    Ok(())
}

fn time_copy<S: Source + Drop, K: Sink + Drop>(
    rt: &(impl Alloc<A = Global> + SystemTime),
    mut source: S,
    mut sink: K,
) -> Result<u64, BenchFault> {
    let start = Instant::now(rt)?;
    copy(rt.alloc(), &mut source, &mut sink)?;
    Ok(nanos_since(rt, start)?)
}

/// Serves a script over a disk in memory.
fn serve_whole(
    rt: &(impl Print + Eprint + Alloc<A = Global> + SystemTime),
    script: Vec<u8>,
) -> Result<(), BenchFault> {
    let came = script.len() as u64;
    let mut sink = MemorySink::new(rt.alloc());
    let served = serve(rt, MemorySource::new(script), &mut sink)?;
    tell(rt, served, came, sink.bytes().len() as u64)?;
    Ok(())
}

fn serve<S: Source + Drop, K: Sink>(
    rt: &(impl Alloc<A = Global> + SystemTime),
    mut source: S,
    sink: &mut K,
) -> Result<Served, BenchFault> {
    let words = or_refused(words_of(rt.alloc()))?;
    let mut disk = or_refused(MemoryDisk::new(rt.alloc(), 0))?;
    Ok(time_over(rt, &words, &mut source, sink, &mut disk)?)
}

/// Tells what a run came to, over so many bytes that came and went.
fn tell(rt: &(impl Print + Eprint), served: Served, came: u64, went: u64) -> io::Result<()> {
    let (lines, status) = (served.lines, served.status);
    println!(rt; "lines {lines} status {status} bytes {came} {went}")?;
    rate(rt, "lines.serve", came.saturating_add(went), served.nanos)
}

/// The words of a run.
fn words_of(alloc: Global) -> Result<Words, cmdlet_line::Memory> {
    let mut words = Words::new(alloc);
    words.push("img")?;
    words.push("--format")?;
    words.push("4096")?;
    Ok(words)
}

/// A script that creates a file, writes so many payloads behind one another and reads them back.
fn script_of(alloc: Global, pieces: u32) -> Result<Vec<u8>, AllocError> {
    let mut script = Vec::new(alloc);
    script.extend_from_slice(b"create a\n")?;
    add_writes(alloc, &mut script, pieces)?;
    add_reads(alloc, &mut script, pieces)?;
    Ok(script)
}

fn add_writes(alloc: Global, script: &mut Vec<u8>, pieces: u32) -> Result<(), AllocError> {
    for k in 0..pieces {
        let at = u64::from(k) * FILE_BYTES;
        let line = format!(in alloc; "write a {at} {FILE_BYTES}\n")?;
        script.extend_from_slice(line.as_bytes())?;
        add_payload(script, u64::from(k), FILE_BYTES)?;
    }
    Ok(())
}

fn add_reads(alloc: Global, script: &mut Vec<u8>, pieces: u32) -> Result<(), AllocError> {
    for k in 0..pieces {
        let at = u64::from(k) * FILE_BYTES;
        let line = format!(in alloc; "read a {at} {FILE_BYTES}\n")?;
        script.extend_from_slice(line.as_bytes())?;
    }
    Ok(())
}

/// Copies what a source has to a sink.
fn copy<S: Source, K: Sink>(alloc: Global, source: &mut S, sink: &mut K) -> Result<(), BenchFault> {
    let mut piece = vec![in alloc; 0u8; COPY]?;
    for _ in 0..u64::MAX {
        match or_refused(read(source, &mut piece))? {
            0 => break,
            count => or_refused(put(sink, piece.get(..count).unwrap_or(&[])))?,
        }
    }
    Ok(())
}

fn read<S: Source>(source: &mut S, piece: &mut [u8]) -> Result<usize, Failed> {
    source.read(piece)
}

/// Writes a piece whole.
fn put<K: Sink>(sink: &mut K, piece: &[u8]) -> Result<(), Failed> {
    let mut rest = piece;
    for _ in 0..piece.len() {
        rest = put_some(sink, rest)?;
    }
    Ok(())
}

/// Writes some of a piece, and gives what is left of it.
fn put_some<'a, K: Sink>(sink: &mut K, piece: &'a [u8]) -> Result<&'a [u8], Failed> {
    let count = sink.write(piece)?;
    Ok(piece.get(count..).unwrap_or(&[]))
}
