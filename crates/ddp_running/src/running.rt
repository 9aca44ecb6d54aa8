// Runs over disks in memory.
ghost use Rattle.std.specs.Prelude.{◌<◌};

use crate::rows::Run;
use crate::settings::{Outside, Setting};
use cmdlet_line::{Memory, Words};
use ddpsh::{Outcome, run};
use row_files::{RowFault, or_memory};
use std::alloc::{AllocError, Global};
use vdisk::{
    Clock, Disk, MemoryClock, MemoryDisk, MemorySink, MemorySource, ReaderSource, Sink, Source,
    WriterSink,
};

/// The second that the clock tells first.
const SECOND: u64 = 1000;

/// How a script comes in and its answers go out.
#[derive(Clone, Copy)]
pub enum Way {
    /// The source hands out at most so many bytes a read, and the sink takes at most as many a write.
    Portions(u64),
    /// By std's reader and writer.
    Std,
}

/// What a run printed and came to.
#[derive(Drop)]
pub struct Ran {
    pub printed: Vec<u8>,
    pub outcome: Outcome,
}

/// Serves a script. It says nothing more, so that no caller reads the contract of a run.
fn served<S: Source, K: Sink, D: Disk, C: Clock>(
    alloc: Global,
    words: &Words,
    script: &mut S,
    out: &mut K,
    disk: &mut D,
    clock: &mut C,
) -> Outcome {
    run(alloc, words, script, out, disk, clock)
}

/// The words of a run; those that mount, where it has none of its own.
fn words_of(alloc: Global, run: &Run) -> Result<Words, Memory> {
    let mut words = Words::new(alloc);
    for setting in &run.settings {
        if let Setting::Words(texts) = setting {
            push_words(&mut words, texts)?;
            return Ok(words);
        }
    }
    words.push("img")?;
    Ok(words)
}

fn push_words(words: &mut Words, texts: &[String]) -> Result<(), Memory> {
    for text in texts {
        words.push(text.as_str())?;
    }
    Ok(())
}

fn clock_of(run: &Run) -> MemoryClock {
    let mut clock = MemoryClock::new(SECOND);
    let call = run.fails_from(Outside::Clock);
    if call > 0 {
        clock.fail_from(call);
    }
    clock
}

fn source_of(alloc: Global, run: &Run, most: usize) -> Result<MemorySource, AllocError>
    requires { 0 < most }
{
    let mut source = MemorySource::in_portions(run.script.as_slice().to_vec(alloc)?, most);
    let call = run.fails_from(Outside::Source);
    if call > 0 {
        source.fail_from(call);
    }
    Ok(source)
}

fn sink_of(alloc: Global, run: &Run, most: usize) -> MemorySink
    requires { 0 < most }
{
    let mut sink = MemorySink::in_portions(alloc, most);
    let call = run.fails_from(Outside::Sink);
    if call > 0 {
        sink.fail_from(call);
    }
    sink
}

fn ran_by_portions(
    alloc: Global,
    run: &Run,
    most: usize,
    disk: &mut MemoryDisk,
) -> Result<Ran, RowFault>
    requires { 0 < most }
{
    let words = or_memory(words_of(alloc, run))?;
    let mut source = source_of(alloc, run, most)?;
    let mut sink = sink_of(alloc, run, most);
    let mut clock = clock_of(run);
    let outcome = served(alloc, &words, &mut source, &mut sink, disk, &mut clock);
    let printed = sink.bytes().to_vec(alloc)?;
    Ok(Ran { printed, outcome })
}

/// A run whose answers go to a sink that is handed in.
fn ran_into<K: Sink>(
    alloc: Global,
    run: &Run,
    sink: &mut K,
    disk: &mut MemoryDisk,
) -> Result<Outcome, RowFault> {
    let words = or_memory(words_of(alloc, run))?;
    let mut clock = clock_of(run);
    let reader = if run
        .settings
        .iter()
        .any(|setting| matches!(setting, Setting::NoSource))
    {
        None
    } else {
        Some(run.script.as_slice())
    };
    let mut source = ReaderSource::new(reader);
    Ok(served(alloc, &words, &mut source, sink, disk, &mut clock))
}

fn room_of(run: &Run) -> Option<u64> {
    for setting in &run.settings {
        if let Setting::Room(room) = setting {
            return Some(*room);
        }
    }
    None
}

fn ran_by_std(alloc: Global, run: &Run, disk: &mut MemoryDisk) -> Result<Ran, RowFault> {
    if let Some(room) = room_of(run) {
        let mut printed = vec![in alloc; 0u8; room as usize]?;
        let outcome = ran_into(
            alloc,
            run,
            &mut WriterSink::new(printed.as_mut_slice()),
            disk,
        )?;
        return Ok(Ran { printed, outcome });
    }
    let mut printed = Vec::new(alloc);
    let outcome = ran_into(alloc, run, &mut WriterSink::new(&mut printed), disk)?;
    Ok(Ran { printed, outcome })
}

/// Makes a run over a disk.
pub fn make_run(
    alloc: Global,
    run: &Run,
    way: Way,
    disk: &mut MemoryDisk,
) -> Result<Ran, RowFault> {
    match way {
        Way::Portions(most) => ran_by_portions(alloc, run, (most as usize).max(1), disk),
        Way::Std => ran_by_std(alloc, run, disk),
    }
}

/// The words that make a volume of 4,096 clusters.
fn format_words(alloc: Global) -> Result<Words, Memory> {
    let mut words = Words::new(alloc);
    for word in ["img", "--format", "4096"] {
        words.push(word)?;
    }
    Ok(words)
}

/// An image of a fresh volume of 4,096 clusters.
pub fn fresh(alloc: Global) -> Result<Vec<u8>, RowFault> {
    let words = or_memory(format_words(alloc))?;
    let mut disk = or_memory(MemoryDisk::new(alloc, 0))?;
    let mut source = MemorySource::new(Vec::new(alloc));
    let mut sink = MemorySink::new(alloc);
    let mut clock = MemoryClock::new(SECOND);
    let _outcome = served(alloc, &words, &mut source, &mut sink, &mut disk, &mut clock);
    Ok(disk.image().to_vec(alloc)?)
}

/// A disk with this image.
pub fn disk_of(alloc: Global, image: &[u8]) -> Result<MemoryDisk, AllocError> {
    Ok(MemoryDisk::with_image(alloc, image.to_vec(alloc)?))
}
